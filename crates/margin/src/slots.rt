// What a selection keeps by value: the two best candidates of the transforms so far, with placing and total.
ghost use Rattle.std.specs.Prelude.{◌≡◌};
ghost use Rattle.margin.specs.Choice.{soft_chosen};

use board::edge::Placing;

// A placing with its total.
#[derive(Clone, Copy)]
pub struct SoftCandidate {
    pub placing: Placing,
    pub total: f32,
}

// First or second place: free, or held by a candidate.
pub type Slot = Option<SoftCandidate>;

// First and second place, and the number of transforms so far.
#[derive(Clone, Copy)]
pub struct SoftScan {
    pub first: Slot,
    pub second: Slot,
    pub count: usize,
}

// What a list of transforms comes to before the margin: no two candidates, or the best and the second.
pub type SoftChoice = Option<(SoftCandidate, SoftCandidate)>;

// What the scan comes to: both candidates, once there was a transform.
pub fn finish(scan: SoftScan) -> SoftChoice
    ensures { result ≡ soft_chosen scan }
{
    let a = scan.first;
    let b = scan.second;
    match a {
        None => None,
        Some(first) => match b {
            None => None,
            Some(second) => Some((first, second)),
        },
    }
}
