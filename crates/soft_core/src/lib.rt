// What an accepted soft call answers: the best placing by likelihoods, its margin, and then the hits of the logical list.
#![tactic(auto)]

ghost use Rattle.std.specs.Prelude.{◌≡◌, ◌≤◌, ◌<◌, length};
ghost use Rattle.likelihood.specs.Likelihood.{likelihoods};
ghost use Rattle.admission.specs.Accepted.{SoftAccepted};
ghost use Rattle.soft_core.specs.Soft.{SoftCoreDone};
ghost use Rattle.admission.specs.CallsGiven.{soft_call_of};

use admission::call::SoftCall;
use answer::SoftAnswer;
use soft_logical::soft_logical;
use soft_verdict::{SoftBest, refuse_soft};

// What an accepted soft call answers: the physical list's best two by likelihood, their margin, then the logical list. The room is left as it was used.
pub fn soft_core(
    call: SoftCall,
    counts: &mut [u32],
    weights: &mut [f32],
    sums: &mut [i64],
) -> SoftAnswer
    requires { SoftAccepted
        (soft_call_of call) (length counts.old) (length weights.old) (length sums.old) }
    ensures { SoftCoreDone
        (soft_call_of call.entry)
        counts.old counts.new weights.old weights.new sums.old sums.new result }
{
    let conf = figures::total_confidence(call.hard.physical.confidences);
    if conf == 0.0 {
        return refuse_soft(refusals::NO_CONFIDENCE);
    }
    let scan = soft::select::scan_transforms(
        call.hard.physical,
        call.likelihoods,
        call.hard.transforms,
        call.hard.tables,
        sums,
    );
    match margin::slots::finish(scan) {
        None => refuse_soft(refusals::SOFT_MARGIN),
        Some((first, second)) => {
            let margin = margin::margin::soft_margin(
                first,
                second,
                call.hard.physical.edges.rows.len() as u32,
            );
            if margin::margin::below(margin, call.soft_margin) {
                return refuse_soft(refusals::SOFT_MARGIN);
            }
            let best = SoftBest {
                first,
                second,
                margin,
            };
            soft_logical(best, call.hard, counts, weights)
        }
    }
}
