// The tests of a dealing.
ghost use Rattle.std.specs.Prelude.{◌≡◌, ◌+◌, ◌*◌, ◌<◌, length};
ghost use Rattle.trustee_shares.specs.Views.{piece};
ghost use Rattle.trustee_gates.specs.inner.Tables.{ProductsReady};
ghost use Rattle.trustee_gates.specs.Dealing.{only_bits, adds_up, product_adds_up, products_add_up};

use crate::{bits, table};

// Whether all parts are 0 or 1.
pub fn only_bits(parts: &[u8]) -> bool
    ensures { result ≡ only_bits parts.now }
{
    parts.iter().all(|part| *part <= 1)
}

// Whether the parts of each ballot byte add up to it.
pub fn adds_up(t: usize, ballots: &[u8], parts: &[u8]) -> bool
    requires { length parts.now ≡ t * length ballots.now }
    ensures { result ≡ adds_up t ballots.now parts.now }
{
    for (x, ballot) in ballots.iter().enumerate() {
        if table::open(parts, ballots.len(), t, x) != *ballot {
            return false;
        }
    }
    true
}

// Whether the parts of the i-th triple's product add up to the product of u and v.
fn product_adds_up(t: usize, size: usize, i: usize, triples: &[u8]) -> bool
    requires { (3 * i + 2 < size) × (length triples.now ≡ t * size) }
    ensures { result ≡ product_adds_up t (piece size triples.now) i }
{
    let u = table::open(triples, size, t, 3 * i);
    let v = table::open(triples, size, t, 3 * i + 1);
    table::open(triples, size, t, 3 * i + 2) == bits::times(u, v)
}

// The same for the triples of all conditional gates.
pub fn products_add_up(t: usize, conditional: usize, triples: &[u8]) -> bool
    requires { ProductsReady t conditional triples.now }
    ensures { result ≡ products_add_up t conditional triples.now }
{
    let size = 3 * conditional;
    for i in 0..conditional {
        if !product_adds_up(t, size, i, triples) {
            return false;
        }
    }
    true
}
