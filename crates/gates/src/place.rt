// Searches for the first place.
ghost use Rattle.std.specs.Prelude.{◌≡◌};
ghost use Rattle.gates.specs.Test.{first_above_one};

// The largest byte that is a bit.
const LARGEST_BIT: u8 = 1;

// The place, counted from 0, of the first byte that is neither 0 nor 1.
pub fn first_above_one(bytes: &[u8]) -> Option<usize>
    ensures { result ≡ first_above_one 0 bytes.now }
{
    for (i, byte) in bytes.iter().enumerate() {
        if LARGEST_BIT < *byte {
            return Some(i);
        }
    }
    None
}
