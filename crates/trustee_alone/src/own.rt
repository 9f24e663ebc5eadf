// Tests of one trustee's number and tables. The numbers of trustees, of the trustee, the round and the inputs are
// passed one by one, as the definitions take them.
ghost use Rattle.std.specs.Prelude.{◌≡◌};
ghost use Rattle.tally.specs.Answer.{size_in};
ghost use Rattle.trustees.specs.inner.Sizes.{SmallSizes};
ghost use Rattle.trustee_alone.specs.Own.{is_trustee, own_tables_fit};

use gates::list::ListSize;
use trustees::test;

// One trustee's own tables, as the tests read them: its triples, its wire parts and what it publishes.
#[derive(Clone, Copy)]
pub(crate) struct OwnTables<'a> {
    pub triples: &'a [u8],
    pub wires: &'a [u8],
    pub published: &'a [u8],
}

// Whether t is 2 to 5, and p, counted from 0, is one of the t trustees.
#[tactic(auto, unfolding(crate::specs::Own::is_trustee))]
pub(crate) fn is_trustee(t: usize, p: usize) -> bool
    ensures { result ≡ is_trustee t p }
{
    test::are_trustees(t) && p < t
}

// Whether triples, wire parts and published bits have the lengths that list and shape need.
#[tactic(auto, unfolding(crate::specs::Own::own_tables_fit))]
pub(crate) fn tables_fit(inputs: usize, k: usize, size: ListSize, own: OwnTables) -> bool
    requires { SmallSizes inputs k size.gates size.conditional }
    ensures { result
        ≡ own_tables_fit inputs k (size_in size) own.entry.triples.now own.entry.wires.now own.entry.published.now }
{
    own.triples.len() == 3 * size.conditional
        && own.wires.len() == inputs + size.gates
        && own.published.len() == 2 * size.conditional + k
}
