// Whether a found hard answer fits itself: refusal 25 of requests C-22 and C-23, which take answers from whoever hands them on.
#![tactic(auto)]

ghost use Rattle.std.specs.Prelude.{◌≡◌};
ghost use Rattle.answer_checks.specs.FoundBad.{found_bad};

use answer::Decoded;

// The number of the refusal: an answer, or a record made of answers, does not fit itself.
pub const BAD_FIGURES: u32 = 25;

// Whether a found answer has no edges or more than 8,192, more hits than edges, or a runner-up with more hits than it has.
pub fn found_bad(d: Decoded) -> bool
    ensures { result ≡ found_bad d }
{
    let edges = d.edges;
    let hits = d.hits;
    if edges == 0 {
        return true;
    }
    if edges > 8192 {
        return true;
    }
    if hits > edges {
        return true;
    }
    d.runner_up_hits > hits
}
