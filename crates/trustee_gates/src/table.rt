// Tables that go trustee after trustee, with pieces of one size.
ghost use Rattle.std.specs.Prelude.{◌≡◌, ◌+◌, ◌≤◌, length, take, drop};
ghost use Rattle.std.proofs.lemmas.List.Edits.{sets};
ghost use Rattle.trustee_shares.specs.Shares.{opened, part};
ghost use Rattle.trustee_shares.specs.Views.{piece};
ghost use Rattle.trustee_gates.specs.inner.Tables.{each_puts, CopyReady, EntryReady, OpenReady};

use crate::bits;

// Trustee p's entry at an index of its piece.
pub(crate) fn entry(table: &[u8], size: usize, p: usize, index: usize) -> u8
    requires { EntryReady size p index table.now }
    ensures { result ≡ part (piece size table.now p) index }
{
    table[p * size + index]
}

// Opens the bit that t trustees share at an index of their pieces: the sum of their entries modulo 2.
pub fn open(table: &[u8], size: usize, t: usize, index: usize) -> u8
    requires { OpenReady size t index table.now }
    ensures { result ≡ opened t (λ p. part (piece size table.now p) index) }
{
    let mut sum = 0;
    for p in 0..t {
        sum = bits::plus(sum, entry(table, size, p, index));
    }
    sum
}

// Copies `count` bytes from place `at` of one table to place `into` of another. The library's method is called in a
// function, whose clause says by `sets` what the loop over trustees needs.
fn copy_part(count: usize, from: &[u8], at: usize, to: &mut [u8], into: usize)
    requires { (at + count ≤ length from.now) × (into + count ≤ length to.old) }
    ensures { to.new ≡ sets to.old into (take count (drop at from.now)) }
{
    basics::slice::copy(&from[at..at + count], &mut to[into..into + count]);
}

// For each trustee, copies `count` entries from index `at` of its piece of one table to index `into` of its piece
// of another.
pub(crate) fn copy_pieces(
    t: usize,
    count: usize,
    from: &[u8],
    size: usize,
    at: usize,
    to: &mut [u8],
    room: usize,
    into: usize,
)
    requires { CopyReady t count from.now size at to.old room into }
    ensures { to.new ≡ each_puts t room into (λ p. take count (drop at (piece size from.now p)))
        to.old }
{
    for p in 0..t {
        copy_part(count, from, p * size + at, to, p * room + into);
    }
}
