// The tests of all juries, before the first gate.
ghost use Rattle.std.specs.Prelude.{◌≡◌, ◌+◌, ◌*◌, ◌≤◌, length};
ghost use Rattle.tally.specs.Answer.{outcome_of};
ghost use Rattle.dispatch_rounds.specs.Tables.{tables_of, fitting};
ghost use Rattle.dispatch_rounds.specs.Rounds.{most_juries};
ghost use Rattle.dispatch.specs.inner.Rounds.{JuryTested, TestsFound};

use crate::refusal::JuryRefusal;
use dispatch_rounds::header::{JuryHeader, JuryNumbers, MOST_JURIES, Places};
use jury::shape::Shape;
use tally::answer::Answer;

// The length of a piece of first + second bytes if that many are left, else 0. The sum is computed only if the
// piece fits, so it does not wrap. A piece of length 0 is refused by the test of its length.
fn bytes_fitting(first: usize, second: usize, left: usize) -> usize
    ensures { result ≡ fitting (first + second) left }
{
    if left < first {
        return 0;
    }
    if left - first < second {
        return 0;
    }
    first + second
}

// The length of a list of this many gates if so many numbers are left, else 0. The product is computed only if the
// list fits, so it does not wrap.
fn numbers_fitting(gates: usize, left: usize) -> usize
    ensures { result ≡ fitting (4 * gates) left }
{
    if gates <= left / 4 { 4 * gates } else { 0 }
}

// All tests of one jury, on what is left of the tables.
fn test_jury(
    header: JuryHeader,
    lists: &[u32],
    ballots: &[u8],
    tapes: &[u8],
    wires: &[u8],
    boards: &[u8],
) -> Answer
    ensures { JuryTested header
        (tables_of lists.now ballots.now tapes.now wires.now
        boards.now) (outcome_of result) }
{
    let shape = Shape {
        candidates: header.candidates,
        grades: header.grades,
        ballots: header.ballots,
    };
    let numbers = numbers_fitting(header.gates, lists.len());
    let size = tally::test::test(shape, &lists[..numbers])?;
    let inputs = shape.ballot_bytes();
    let ballot_bytes = bytes_fitting(inputs, 0, ballots.len());
    jury::ballots::test(shape, &ballots[..ballot_bytes])?;
    let masks = bytes_fitting(size.conditional, 0, tapes.len());
    let values = bytes_fitting(inputs, size.gates, wires.len());
    let shown = bytes_fitting(size.conditional, shape.candidates, boards.len());
    tally::run::test_buffers(
        inputs,
        shape.candidates,
        size,
        &tapes[..masks],
        &wires[..values],
        &boards[..shown],
    )?;
    Ok(size)
}

// What the tests of accepted juries found: each jury's number of conditional gates, and the number of all their wires.
#[derive(Drop)]
pub(crate) struct Tested {
    pub(crate) conditional: JuryNumbers,
    pub(crate) wires: usize,
}

// Tests the juries in order: all tests of one jury come before those of the next.
pub(crate) fn test_juries(
    headers: &[JuryHeader],
    lists: &[u32],
    ballots: &[u8],
    tapes: &[u8],
    wires: &[u8],
    boards: &[u8],
) -> Result<Tested, JuryRefusal>
    requires { length headers.now ≤ most_juries }
    ensures { TestsFound headers.now (tables_of lists.now ballots.now tapes.now
        wires.now boards.now) result }
{
    let mut conditional = [0usize; MOST_JURIES];
    let mut at = Places {
        lists: 0,
        ballots: 0,
        tapes: 0,
        wires: 0,
        boards: 0,
    };
    for (j, header) in headers.iter().enumerate() {
        let size = match test_jury(
            *header,
            &lists[at.lists..],
            &ballots[at.ballots..],
            &tapes[at.tapes..],
            &wires[at.wires..],
            &boards[at.boards..],
        ) {
            Ok(size) => size,
            Err(reason) => return Err(JuryRefusal { reason, jury: j }),
        };
        conditional[j] = size.conditional;
        at = at.after(*header, size.conditional);
    }
    Ok(Tested {
        conditional,
        wires: at.wires,
    })
}
