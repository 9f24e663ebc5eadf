// A trustee on its own machine, for C.
ghost use Rattle.std.specs.Prelude.{◌≡◌, [], ◌∷◌};
ghost use Rattle.c_answers.specs.Numbers.{shape_of};
ghost use Rattle.c_trustees.specs.Calls.{start_call, round_call, finish_call};

use c_answers::array::{SHORT_ANSWER, SIZE_ANSWER, THREE_ANSWER};
use c_answers::size::put_size;
use c_levels::calls::put_depths;
use jury::shape::Shape;
use levels::answer::LevelRefusal;

// A trustee starts: its wire parts are its ballot parts, then zeros, and nothing is published yet. Answers reason,
// place, G and C.
pub fn jugy_trustee_start(
    candidates: usize,
    grades: usize,
    ballots: usize,
    table: &[u32],
    trustees: usize,
    trustee: usize,
    shares: &[u8],
    triples: &[u8],
    wires: &mut [u8],
    published: &mut [u8],
    answer: &mut [usize],
) -> usize
    ensures { record {
      returned = result;
      answer = answer.new;
      lent = wires.new ∷ published.new ∷ [];
    } ≡ start_call (shape_of candidates grades ballots) table.now trustees trustee shares.now
        triples.now wires.old published.old answer.old }
{
    if answer.len() < SIZE_ANSWER {
        return SHORT_ANSWER;
    }
    let shape = match Shape::new(candidates, grades, ballots) {
        Ok(shape) => shape,
        Err(reason) => return put_size(Err(reason), answer),
    };
    let outcome = trustee_alone::start::start(
        shape, table, trustees, trustee, shares, triples, wires, published,
    );
    put_size(outcome, answer)
}

// A trustee plays a round: it computes its wire parts of this level and publishes for the next. Answers reason, place,
// G, C and R.
pub fn jugy_trustee_round(
    candidates: usize,
    grades: usize,
    ballots: usize,
    table: &[u32],
    trustees: usize,
    trustee: usize,
    round: usize,
    levels: &[u32],
    triples: &[u8],
    heard: &[u8],
    wires: &mut [u8],
    published: &mut [u8],
    answer: &mut [usize],
) -> usize
    ensures { record {
      returned = result;
      answer = answer.new;
      lent = wires.new ∷ published.new ∷ [];
    } ≡ round_call (shape_of candidates grades ballots) table.now trustees trustee round
        levels.now triples.now heard.now wires.old published.old
        answer.old }
{
    if answer.len() < THREE_ANSWER {
        return SHORT_ANSWER;
    }
    let shape = match Shape::new(candidates, grades, ballots) {
        Ok(shape) => shape,
        Err(reason) => return put_depths(Err(LevelRefusal::OfCore(reason)), answer),
    };
    let outcome = trustee_alone::round::round(
        shape, table, trustees, trustee, round, levels, triples, heard, wires, published,
    );
    put_depths(outcome, answer)
}

// A trustee finishes: its wire parts are emptied. Answers reason, place, G and C.
pub fn jugy_trustee_finish(
    candidates: usize,
    grades: usize,
    ballots: usize,
    table: &[u32],
    wires: &mut [u8],
    answer: &mut [usize],
) -> usize
    ensures { record { returned = result; answer = answer.new; lent = wires.new ∷ [] }
        ≡ finish_call (shape_of candidates grades ballots) table.now wires.old
        answer.old }
{
    if answer.len() < SIZE_ANSWER {
        return SHORT_ANSWER;
    }
    let shape = match Shape::new(candidates, grades, ballots) {
        Ok(shape) => shape,
        Err(reason) => return put_size(Err(reason), answer),
    };
    let outcome = trustee_alone::finish::finish(shape, table, wires);
    put_size(outcome, answer)
}
