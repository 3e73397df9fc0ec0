// Division rounded up.
ghost use Rattle.std.specs.Prelude.{◌≡◌, ◌≤◌};
ghost use Rattle.server.specs.Rounding.{ceil_div, Reaches};

// n divided by p, rounded up: the least k with n ≤ k × p. By 0 it answers 0.
pub fn ceil_div(n: u32, p: u32) -> u32
    ensures answer { result ≡ ceil_div n p }
    ensures reaches { 1 ≤ p → Reaches n p result }
{
    if p == 0 { 0 } else { n.div_ceil(p) }
}
