// What an accepted call over a part answers (request C-20): the winners of both lists over the part by hits and then weight, judged by hits.
#![tactic(auto)]

ghost use Rattle.std.specs.Prelude.{◌≡◌, length};
ghost use Rattle.admission.specs.Accepted.{HardAccepted};
ghost use Rattle.exact.specs.Select.{units_to};
ghost use Rattle.part.specs.Part.{PartOk};
ghost use Rattle.part_core.specs.PartCore.{shown_beside, judged_part, PartCoreDone};
ghost use Rattle.part_core.specs.PartReady.{NextListed, PartJudgeReady};
ghost use Rattle.admission.specs.CallsGiven.{hard_call_of};

use admission::call::HardCall;
use answer::Square;
use exact::select::unit_sum;
use exact_scan::kept::ExactWinner;
use part::Part;
use part_answer::{PartAnswer, PartRunnerUp};
use part_select::kept::PartNext;
use part_select::select::select_part;
use part_verdict::judge_part;

// What is shown beside the winner: the runner-up with its square, whose transform stands at its list position, or that there is none.
fn shown_beside(transforms: &[u8], next: PartNext) -> PartRunnerUp
    requires { NextListed transforms.now next }
    ensures { result ≡ shown_beside transforms.now next }
{
    match next {
        None => None,
        Some(other) => {
            let at = other.placing.listed;
            let square = Square {
                transform: transforms[at],
                row: other.placing.row,
                col: other.placing.col,
            };
            Some((square, other.hits, other.weight))
        }
    }
}

// The logical list's winner w, with its runner-up, judged against the physical list's winner p; the list's total is counted for the answer.
fn judge_winners(
    rows: &[i32],
    confidences: &[f32],
    transforms: &[u8],
    w: ExactWinner,
    next: PartNext,
    p: ExactWinner,
) -> PartAnswer
    requires { PartJudgeReady (length rows.now) confidences.now transforms.now w next p }
    ensures { result ≡ judged_part (length rows.now) (units_to confidences.now (length confidences.now)) transforms.now w next p }
{
    let total = unit_sum(confidences);
    let beside = shown_beside(transforms, next);
    let edges = rows.len() as u32;
    let at = w.placing.listed;
    let other = p.placing.listed;
    judge_part(
        transforms[at],
        w,
        beside,
        transforms[other],
        p,
        edges,
        total,
    )
}

// What an accepted call over a part answers: the logical list with the limit, the physical list with limit 1, both over the part, then both judged. The room is left as it was used.
pub fn part_core(call: HardCall, part: Part, units: &mut [u64]) -> PartAnswer
    requires hard_accepted { HardAccepted
        (hard_call_of call) (length units.old) (length units.old) }
    requires h_len { (length call.tables.h.now ≡ 167) × PartOk part }
    ensures { PartCoreDone
        (hard_call_of call.entry) part
        units.old units.new result }
{
    let (w, next) = select_part(
        call.logical,
        call.transforms,
        call.tables,
        part,
        call.error_limit,
        units,
    )?;
    let (p, _) = select_part(
        call.physical,
        call.transforms,
        call.tables,
        part,
        1.0,
        units,
    )?;
    judge_winners(
        call.logical.edges.rows,
        call.logical.confidences,
        call.transforms,
        w,
        next,
        p,
    )
}
