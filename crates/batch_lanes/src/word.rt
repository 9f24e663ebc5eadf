// One word holds a bit for each of 64 juries, lowest first.
ghost use Rattle.std.specs.Prelude.{◌≡◌, ℕ, ◌<◌};
ghost use Rattle.gates.specs.Kind.{value_of, kind_count};
ghost use Rattle.batch_lanes.specs.Lane.{lane_count, lane};

// A word whose 64 bits are all 1.
pub const ALL: u64 = u64::MAX;

// The value of a kind in all lanes at once. A choice is b in the lanes where a is 1, and c in the others.
pub fn value(kind: u32, a: u64, b: u64, c: u64) -> u64
    requires { kind < kind_count }
    ensures { (j : ℕ) → j < lane_count → lane j result ≡ value_of kind (lane j a) (lane j b) (lane j c) }
{
    match kind {
        0 => 0,
        1 => ALL,
        2 => a,
        // Not `!a`, whose clause gives 2 ^ 64 - 1 - a: no lane by itself.
        3 => a ^ ALL,
        4 => a & b,
        5 => a | b,
        6 => a ^ b,
        7 => c ^ (a & (b ^ c)),
        8..=4294967295 => 0,
    }
}
