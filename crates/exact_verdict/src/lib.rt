// The verdict on the exact winners (request C-15), by value: whether they agree, the gate, and the found answer put together.
#![tactic(auto)]

ghost use Rattle.std.specs.Prelude.{◌≡◌, ◌≤◌};
ghost use Rattle.exact_verdict.specs.ExactVerdict.{exact_decoded_of, exact_judged};

use answer::Square;
use exact_answer::{ExactAnswer, ExactDecoded};
use exact_scan::kept::ExactWinner;
use refusals::Refusal;
use scan::scan::RunnerUp;

// What a found exact answer says of the winner w under transform t, with its runner-up, where all edges weigh `total` and the runner-up's hits `runner_weight`.
fn decoded_exact(
    t: u8,
    w: ExactWinner,
    runner: RunnerUp,
    edges: u32,
    total: u64,
    runner_weight: u64,
) -> ExactDecoded
    requires { (w.hits ≤ edges) × (edges ≤ 8192) }
    ensures { result ≡ exact_decoded_of t w runner edges total runner_weight }
{
    let square = Square {
        transform: t,
        row: w.placing.row,
        col: w.placing.col,
    };
    let competitor = Square {
        transform: runner.transform,
        row: runner.row,
        col: runner.col,
    };
    let error_rate = figures::rate(edges, w.hits);
    ExactDecoded {
        square,
        hits: w.hits,
        edges,
        weight: w.weight,
        total,
        error_rate,
        runner_up: competitor,
        runner_up_hits: runner.hits,
        runner_up_weight: runner_weight,
    }
}

// The logical winner w under transform t, with its runner-up, judged against the physical winner p under transform s: they disagree, it is not far ahead, or found.
pub fn judge_exact(
    t: u8,
    w: ExactWinner,
    runner: RunnerUp,
    s: u8,
    p: ExactWinner,
    edges: u32,
    total: u64,
    runner_weight: u64,
) -> ExactAnswer
    requires { (w.hits ≤ edges) × (edges ≤ 8192) }
    ensures { result ≡ exact_judged t w runner s p edges total runner_weight }
{
    if t == s {
        if w.placing.row == p.placing.row {
            if w.placing.col == p.placing.col {
                if figures::passes(edges, w.hits, runner.hits) {
                    let found = decoded_exact(t, w, runner, edges, total, runner_weight);
                    return Ok(found);
                }
                return Err(Refusal {
                    number: refusals::NOT_FAR_AHEAD,
                    place: None,
                });
            }
        }
    }
    Err(Refusal {
        number: refusals::LISTS_DISAGREE,
        place: None,
    })
}
