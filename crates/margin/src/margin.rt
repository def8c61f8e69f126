// The margin of the best candidate over the second, per edge.
ghost use Rattle.std.specs.Prelude.{◌≡◌, ◌≤◌};
ghost use Rattle.margin.specs.Margin.{soft_margin, below_margin};

use crate::slots::SoftCandidate;

// The difference of the two totals, then its share per edge.
pub fn soft_margin(first: SoftCandidate, second: SoftCandidate, edges: u32) -> f32
    requires { edges ≤ 8192 }
    ensures { result ≡ soft_margin first second edges }
{
    (first.total - second.total) / edges as f32
}

// Whether a margin is smaller than the soft margin that is asked for.
pub fn below(margin: f32, soft_margin: f32) -> bool
    ensures { result ≡ below_margin margin soft_margin }
{
    margin < soft_margin
}
