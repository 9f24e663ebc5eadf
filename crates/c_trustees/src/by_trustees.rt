// The tally by trustees, for C.
ghost use Rattle.std.specs.Prelude.{◌≡◌, [], ◌∷◌, ◌≤◌, length};
ghost use Rattle.trustees.specs.Result.{tallied_outcome, tallied_closing};
ghost use Rattle.c_answers.specs.Numbers.{tally_answer, shape_of};
ghost use Rattle.c_answers.specs.inner.Puts.{Puts};
ghost use Rattle.c_trustees.specs.Calls.{trustees_call};
ghost use Rattle.c_trustees.specs.Numbers.{tally_numbers};

use c_answers::array::{SHORT_ANSWER, TALLY_ANSWER, put};
use c_answers::closing::numbers;
use jury::reason::Refusal;
use jury::shape::Shape;
use trustees::run::{Tallied, run};

// What the call tells: G and C, then the eight closing bytes.
fn told(tallied: Tallied) -> [usize; 10]
    ensures { result ≡ tallied.size.gates ∷ tallied.size.conditional ∷ tallied.closing }
{
    let mut told = [0usize; 10];
    told[0] = tallied.size.gates;
    told[1] = tallied.size.conditional;
    basics::slice::copy(&numbers(tallied.closing), &mut told[2..]);
    told
}

// Puts reason, place, G, C and the eight closing bytes, and returns the status.
fn put_tally(outcome: Result<Tallied, Refusal>, answer: &mut [usize]) -> usize
    requires { tally_answer ≤ length answer.old }
    ensures { Puts tally_answer (tally_numbers (tallied_outcome outcome) (tallied_closing outcome))
        answer.old answer.new result }
{
    put(outcome.map(told), answer)
}

// Tallies ballots that trustees hold in parts. Answers reason, place, G, C and the opened closing bits as eight
// bytes.
pub fn jugy_trustees(
    candidates: usize,
    grades: usize,
    ballots: usize,
    table: &[u32],
    bytes: &[u8],
    trustees: usize,
    shares: &[u8],
    triples: &[u8],
    wires: &mut [u8],
    published: &mut [u8],
    answer: &mut [usize],
) -> usize
    ensures { record {
      returned = result;
      answer = answer.new;
      lent = wires.new ∷ published.new ∷ [];
    } ≡ trustees_call (record {
      shape = shape_of candidates grades ballots;
      table = table.now;
      ballots = bytes.now;
      trustees = trustees;
      lent = record {
        dealing = record { ballot_parts = shares.now; dealer_parts = triples.now };
        wire_parts = wires.old;
        published = published.old;
      };
    }) answer.old }
{
    if answer.len() < TALLY_ANSWER {
        return SHORT_ANSWER;
    }
    let shape = match Shape::new(candidates, grades, ballots) {
        Ok(shape) => shape,
        Err(reason) => return put_tally(Err(reason), answer),
    };
    let outcome = run(
        shape, table, bytes, trustees, shares, triples, wires, published,
    );
    put_tally(outcome, answer)
}
