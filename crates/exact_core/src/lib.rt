// What an accepted exact call answers (request C-15): the winners of both lists by hits and then weight, judged by hits.
#![tactic(auto)]

ghost use Rattle.std.specs.Prelude.{◌≡◌, length};
ghost use Rattle.admission.specs.Accepted.{HardAccepted};
ghost use Rattle.exact_core.specs.ExactCore.{judged_winners, ExactCoreDone};
ghost use Rattle.exact_core.specs.ExactReady.{JudgeReady};
ghost use Rattle.admission.specs.CallsGiven.{hard_call_of};
ghost use Rattle.board.specs.Given.{board_of, list_of};

use admission::call::HardCall;
use answer::Square;
use board::list::List;
use board::pattern::Tables;
use exact::select::{select_exact, unit_sum};
use exact_answer::ExactAnswer;
use exact_scan::kept::ExactWinner;
use exact_verdict::judge_exact;
use exact_weight::weight_at;
use scan::scan::RunnerUp;

// The logical list's winner w, with its runner-up, judged against the physical list's winner p; the list's total and the runner-up's weight are counted for the answer.
fn judge_winners(
    list: List,
    transforms: &[u8],
    tables: Tables,
    w: ExactWinner,
    runner: RunnerUp,
    p: ExactWinner,
) -> ExactAnswer
    requires { JudgeReady (board_of tables) (list_of list) transforms.now w runner p }
    ensures { result ≡ judged_winners (board_of tables.entry)
        (list_of list.entry)
        transforms.now w runner p }
{
    let total = unit_sum(list.confidences);
    let competitor = Square {
        transform: runner.transform,
        row: runner.row,
        col: runner.col,
    };
    let runner_weight = weight_at(list, competitor, tables);
    let edges = list.edges.rows.len() as u32;
    let at = w.placing.listed;
    let other = p.placing.listed;
    judge_exact(
        transforms[at],
        w,
        runner,
        transforms[other],
        p,
        edges,
        total,
        runner_weight,
    )
}

// What an accepted exact call answers: the logical list with the limit, the physical list with limit 1, then both judged. The room is left as it was used.
pub fn exact_core(call: HardCall, units: &mut [u64]) -> ExactAnswer
    requires { HardAccepted
        (hard_call_of call) (length units.old) (length units.old) }
    ensures { ExactCoreDone
        (hard_call_of call.entry)
        units.old units.new result }
{
    let (w, runner) = select_exact(
        call.logical,
        call.transforms,
        call.tables,
        call.error_limit,
        units,
    )?;
    let (p, _) = select_exact(call.physical, call.transforms, call.tables, 1.0, units)?;
    judge_winners(call.logical, call.transforms, call.tables, w, runner, p)
}
