// The width of a number.
ghost use Rattle.std.specs.Prelude.{◌≡◌};
ghost use Rattle.jury.specs.Width.{width_of};

// How many binary digits n has; 0 has none. The logarithm is cast: there is no `From<u32>` for `usize`.
#[tactic(auto, using(crate::proofs::WidthLaws::width_zero, crate::proofs::WidthLaws::width_by_powers))]
pub fn width(n: usize) -> usize
    ensures { result ≡ width_of n }
{
    match n.checked_ilog2() {
        Some(last) => last as usize + 1,
        None => 0,
    }
}
