// Closing bytes in an answer.
ghost use Rattle.std.specs.Prelude.{◌≡◌};

use jury::shape::{ClosingBytes, Shape};

// The eight closing bytes as numbers of an answer. A candidate that the shape does not have has byte 0.
pub fn numbers(closing: ClosingBytes) -> [usize; Shape::MOST_CANDIDATES]
    ensures { result ≡ closing }
{
    closing.map(usize::from)
}
