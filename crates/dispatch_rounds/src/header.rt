// A jury's header, and where its pieces are in the tables that are lent for all juries.
ghost use Rattle.std.specs.Prelude.{◌≡◌};
ghost use Rattle.dispatch_rounds.specs.inner.State.{places_after, PlacesFit};

use jury::shape::Shape;

// A jury's shape and its number of gates. Before they are tested, these may be any numbers.
#[derive(Clone, Copy)]
pub struct JuryHeader {
    pub candidates: usize,
    pub grades: usize,
    pub ballots: usize,
    pub gates: usize,
}

// The most juries of a call.
pub const MOST_JURIES: usize = 8;

// A header for each jury of a call. Those past the number of juries do not matter.
pub type Headers = [JuryHeader; MOST_JURIES];

// A number for each jury, 0 past the last.
pub type JuryNumbers = [usize; MOST_JURIES];

// Where a jury's pieces begin in the five tables.
#[derive(Clone, Copy)]
pub struct Places {
    pub lists: usize,
    pub ballots: usize,
    pub tapes: usize,
    pub wires: usize,
    pub boards: usize,
}

impl Places {
    // Where the next jury's pieces begin: after those of a jury with this many conditional gates.
    pub fn after(self, header: JuryHeader, conditional: usize) -> Places
        requires { PlacesFit self header conditional }
        ensures { result ≡ places_after self header conditional }
    {
        let shape = Shape {
            candidates: header.candidates,
            grades: header.grades,
            ballots: header.ballots,
        };
        let inputs = shape.ballot_bytes();
        Places {
            lists: self.lists + 4 * header.gates,
            ballots: self.ballots + inputs,
            tapes: self.tapes + conditional,
            wires: self.wires + (inputs + header.gates),
            boards: self.boards + (conditional + header.candidates),
        }
    }
}
