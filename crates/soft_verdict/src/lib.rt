// The verdict on the soft winner, by value: against the hard winner and the gate, and the found answer put together.
#![tactic(auto)]

ghost use Rattle.std.specs.Prelude.{◌≡◌, ◌≤◌, ◌<◌};
ghost use Rattle.soft_verdict.specs.SoftVerdict.{soft_refused_by, soft_verdict, soft_decoded_of};

use answer::{SoftAnswer, SoftDecoded, Square};
use figures::Fit;
use margin::slots::SoftCandidate;
use refusals::{Admission, Refusal};
use scan::scan::{Candidate, RunnerUp};

// The two best placings by likelihood, and how far the first is ahead per edge: kept together until the answer is assembled.
#[derive(Clone, Copy)]
pub struct SoftBest {
    pub first: SoftCandidate,
    pub second: SoftCandidate,
    pub margin: f32,
}

// A refusal of soft decode by its number.
pub fn refuse_soft(number: u32) -> SoftAnswer
    ensures { result ≡ soft_refused_by number }
{
    Err(Refusal {
        number,
        place: None,
    })
}

// The soft winner under transform t against the hard winner w of the logical list under transform s: they disagree, it is not far ahead, or accepted.
pub fn soft_verdict(
    t: u8,
    best: SoftBest,
    s: u8,
    w: Candidate,
    runner: RunnerUp,
    edges: u32,
) -> Admission
    ensures { result ≡ soft_verdict t best.first s w runner edges }
{
    if t == s {
        if best.first.placing.row == w.placing.row {
            if best.first.placing.col == w.placing.col {
                if figures::passes(edges, w.hits, runner.hits) {
                    return Ok(());
                }
                return Err(Refusal {
                    number: refusals::NOT_FAR_AHEAD,
                    place: None,
                });
            }
        }
    }
    Err(Refusal {
        number: refusals::SOFT_HARD_DISAGREE,
        place: None,
    })
}

// What a found soft answer says: the soft winner under transform t with its total and margin, the second by likelihood under transform u with its own total, the physical list's fit, and the hard
// runner-up with its hits.
pub fn soft_decoded(
    t: u8,
    u: u8,
    best: SoftBest,
    fit: Fit,
    edges: u32,
    runner: RunnerUp,
) -> SoftDecoded
    requires { (fit.hits ≤ edges) × (edges ≤ 8192) }
    ensures { result ≡ soft_decoded_of t u best fit edges runner }
{
    let square = Square {
        transform: t,
        row: best.first.placing.row,
        col: best.first.placing.col,
    };
    let second = Square {
        transform: u,
        row: best.second.placing.row,
        col: best.second.placing.col,
    };
    let runner_up = Square {
        transform: runner.transform,
        row: runner.row,
        col: runner.col,
    };
    let weighted_score = best.first.total / edges as f32;
    let error_rate = figures::rate(edges, fit.hits);
    let mean_confidence = figures::mean(fit.hits, fit.weight);
    SoftDecoded {
        square,
        hits: fit.hits,
        edges,
        weighted_score,
        error_rate,
        mean_confidence,
        best_score: best.first.total,
        second,
        second_score: best.second.total,
        margin: best.margin,
        runner_up,
        runner_up_hits: runner.hits,
    }
}
