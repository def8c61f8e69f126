// What an accepted hard call answers: the winners of both lists, judged by hits.
#![tactic(auto)]

ghost use Rattle.std.specs.Prelude.{◌≡◌, ◌≤◌, ◌<◌, length};
ghost use Rattle.admission.specs.Accepted.{HardAccepted};
ghost use Rattle.hard_core.specs.Hard.{CoreDone};
ghost use Rattle.admission.specs.CallsGiven.{hard_call_of};

use admission::call::HardCall;
use answer::Answer;
use verdict::verdict::judge;

// What an accepted hard call answers: the logical list with the limit, the physical list with limit 1, then both judged. The room is left as it was used.
pub fn hard_core(call: HardCall, counts: &mut [u32], weights: &mut [f32]) -> Answer
    requires { HardAccepted
        (hard_call_of call) (length counts.old) (length weights.old) }
    ensures { CoreDone
        (hard_call_of call.entry)
        counts.old counts.new weights.old weights.new result }
{
    let (w, runner) = hard::select::select(
        call.logical,
        call.transforms,
        call.tables,
        call.error_limit,
        counts,
        weights,
    )?;
    let (p, _) = hard::select::select(
        call.physical,
        call.transforms,
        call.tables,
        1.0,
        counts,
        weights,
    )?;
    let at = w.placing.listed;
    let other = p.placing.listed;
    judge(
        call.transforms[at],
        w,
        runner,
        call.transforms[other],
        p,
        call.logical.edges.rows.len() as u32,
    )
}
