// Bits modulo 2. Nothing here can wrap, whatever the bytes are.
ghost use Rattle.std.specs.Prelude.{◌≡◌, ◌+◌, ◌*◌, ◌%◌};
ghost use Rattle.trustee_shares.specs.Shares.{entered, part_of_kind};

// The sum of two bits.
pub(crate) fn plus(a: u8, b: u8) -> u8
    ensures { result ≡ (a + b) % 2 }
{
    (a % 2 + b % 2) % 2
}

// The product of two bits. No branch depends on them.
pub(crate) fn times(a: u8, b: u8) -> u8
    ensures { result ≡ (a * b) % 2 }
{
    (a % 2) * (b % 2)
}

// Trustee p's part of a public bit: the bit for the first trustee, 0 for the others.
pub(crate) fn enter_once(p: usize, x: u8) -> u8
    ensures { result ≡ entered p x }
{
    if p == 0 { x } else { 0 }
}

// Trustee p's bit of a product, from its bits of the triple and both opened sums.
pub fn product_bit(p: usize, u: u8, v: u8, product: u8, first: u8, second: u8) -> u8
    ensures { result ≡ (product + first * v + second * u + entered p (first * second)) % 2 }
{
    let triples = plus(product, times(first, v));
    let masked = plus(triples, times(second, u));
    plus(masked, enter_once(p, times(first, second)))
}

// Trustee p's bit of a gate's wire, from its bits of the operands and its bit z of the product.
pub fn part_of_kind(p: usize, kind: u32, a: u8, b: u8, c: u8, z: u8) -> u8
    ensures { result ≡ part_of_kind p kind a b c z }
{
    let one = enter_once(p, 1);
    match kind {
        0 => 0,
        1 => one,
        2 => a,
        3 => (a % 2 + one % 2) % 2,
        4 => z,
        5 => (a % 2 + b % 2 + z % 2) % 2,
        6 => (a % 2 + b % 2) % 2,
        7 => (c % 2 + z % 2) % 2,
        _ => 0,
    }
}
