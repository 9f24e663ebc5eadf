// Lengths of what is lent for an evaluation.
ghost use Rattle.std.specs.Prelude.{◌≡◌, ◌+◌, eqb, length};

// Whether there are first + second values, bytes or words: C + 0 for a tape, I + G for a wire table, C + k for a
// board. The sum is never formed, because it could wrap.
pub fn has_length<T>(values: &[T], first: usize, second: usize) -> bool
    ensures { result ≡ eqb (length values.now) (first + second) }
{
    first <= values.len() && values.len() - first == second
}
