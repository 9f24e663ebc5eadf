// What the library's slices lack.
ghost use Rattle.std.specs.Prelude.{◌≡◌, length};

// Copies a slice over another of its length. A loop and not the library's `copy_from_slice`: that is compiled to calls
// of C's `memmove`, which an archive for C would then need from outside.
pub fn copy<T: Copy>(from: &[T], to: &mut [T])
    requires { length to.old ≡ length from.now }
    ensures { to.new ≡ from.now }
{
    for (i, value) in from.iter().enumerate() {
        to[i] = *value;
    }
}
