// Writing one slot of an urn.
ghost use Rattle.std.specs.Prelude.{◌≡◌, ◌∷◌, ◌++◌, ◌+◌, ◌≤◌, length, take, drop};

// Writes a whole slot, from place `at` on.
pub(crate) fn put_slot(urn: &mut [u8], at: usize, next: u8, juror: u8, ballot: &[u8])
    requires { at + 2 + length ballot.now ≤ length urn.old }
    ensures { urn.new ≡ take at urn.old ++ (next ∷ juror ∷ ballot.now)
        ++ drop (at + 2 + length ballot.now) urn.old }
{
    urn[at] = next;
    urn[at + 1] = juror;
    let from = at + 2;
    let end = from + ballot.len();
    basics::slice::copy(ballot, &mut urn[from..end]);
}
