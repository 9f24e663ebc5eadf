// One run of a season, read from its twelve bytes.
ghost use Rattle.std.specs.Prelude.{◌≡◌, ◌+◌, ◌≤◌, ◌^◌, ltb, length};
ghost use Rattle.season.specs.Season.{run_bytes, ones_in, winners_of, good_run};
ghost use Rattle.season.specs.inner.Sums.{NumberRead, RunRead};

use jury::shape::Shape;

// How many bytes a run has.
pub const RUN_BYTES: usize = 12;

// How many bits a mask has.
const MASK_BITS: usize = 8;

// The shape of a jury, its closing bytes as a mask whose lowest bit is candidate 0, and its list's G and C.
#[derive(Clone, Copy)]
pub struct Run {
    pub candidates: usize,
    pub grades: usize,
    pub ballots: usize,
    pub mask: usize,
    pub gates: usize,
    pub conditional: usize,
}

// The number in the four bytes from place `at` on, low byte first.
fn number(bytes: &[u8], at: usize) -> usize
    requires { at + 4 ≤ length bytes.now }
    ensures { NumberRead at bytes.now result }
{
    u32::from_le_bytes([bytes[at], bytes[at + 1], bytes[at + 2], bytes[at + 3]]) as usize
}

// Whether a mask has no bit from k on.
fn mask_fits(mask: usize, k: usize) -> bool
    ensures { result ≡ ltb mask (2 ^ k) }
{
    let mut rest = mask;
    for _i in 0..k {
        rest /= 2;
    }
    rest == 0
}

// How many bits of a mask are 1.
fn winners(mask: usize) -> usize
    ensures { result ≡ ones_in 8 mask }
{
    let mut count = 0;
    let mut rest = mask;
    for _i in 0..MASK_BITS {
        count += rest % 2;
        rest /= 2;
    }
    count
}

impl Run {
    // The run in twelve bytes.
    pub fn read(bytes: &[u8]) -> Run
        requires { run_bytes ≤ length bytes.now }
        ensures { RunRead bytes.now result }
    {
        Run {
            candidates: usize::from(bytes[0]),
            grades: usize::from(bytes[1]),
            ballots: usize::from(bytes[2]),
            mask: usize::from(bytes[3]),
            gates: number(bytes, 4),
            conditional: number(bytes, 8),
        }
    }

    // Whether the shape is within the limits, and the mask has bits only for candidates.
    pub fn is_good(self) -> bool
        ensures { result ≡ good_run self }
    {
        let shape = Shape {
            candidates: self.candidates,
            grades: self.grades,
            ballots: self.ballots,
        };
        shape.is_within_limits() && mask_fits(self.mask, self.candidates)
    }

    // Whether several candidates won.
    pub fn is_shared(self) -> bool
        ensures { result ≡ ltb 1 (winners_of self) }
    {
        1 < winners(self.mask)
    }
}
