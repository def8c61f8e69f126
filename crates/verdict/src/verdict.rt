// The verdict on the winners, by value: whether they agree, the gate, and the found answer put together; or a refusal by its number.
ghost use Rattle.std.specs.Prelude.{◌≡◌, ◌≤◌, ◌<◌};
ghost use Rattle.verdict.specs.Verdict.{refused_by, agreed, decoded_of, judged};

use answer::{Answer, Decoded, Square};
use refusals::Refusal;
use scan::scan::{Candidate, RunnerUp};

// A refusal by its number.
pub fn refuse(number: u32) -> Answer
    ensures { result ≡ refused_by number }
{
    Err(Refusal {
        number,
        place: None,
    })
}

// Whether two winners agree in transform and origin.
fn same_square(t: u8, a: Candidate, s: u8, b: Candidate) -> bool
    ensures { result ≡ agreed t a s b }
{
    if t == s {
        if a.placing.row == b.placing.row {
            return a.placing.col == b.placing.col;
        }
    }
    false
}

// What a found answer says of the winner w under transform t, with its runner-up.
fn decoded(t: u8, w: Candidate, runner: RunnerUp, edges: u32) -> Decoded
    requires { (w.hits ≤ edges) × (runner.hits ≤ edges) × (edges ≤ 8192) }
    ensures { result ≡ decoded_of t w runner edges }
{
    let square = Square {
        transform: t,
        row: w.placing.row,
        col: w.placing.col,
    };
    let competitor = Square {
        transform: runner.transform,
        row: runner.row,
        col: runner.col,
    };
    let error_rate = figures::rate(edges, w.hits);
    let mean_confidence = figures::mean(w.hits, w.weight);
    let margin_hits = figures::margin(w.hits, runner.hits);
    Decoded {
        square,
        hits: w.hits,
        edges,
        weighted_score: w.score,
        error_rate,
        mean_confidence,
        best_score: w.score,
        runner_up: competitor,
        runner_up_hits: runner.hits,
        margin_hits,
    }
}

// The logical winner w under transform t, with its runner-up, judged against the physical winner p under transform s: they disagree, it is not far ahead, or found.
pub fn judge(t: u8, w: Candidate, runner: RunnerUp, s: u8, p: Candidate, edges: u32) -> Answer
    requires { (w.hits ≤ edges) × (runner.hits ≤ edges) × (edges ≤ 8192) }
    ensures { result ≡ judged t w runner s p edges }
{
    if !same_square(t, w, s, p) {
        return refuse(refusals::LISTS_DISAGREE);
    }
    if !figures::passes(edges, w.hits, runner.hits) {
        return refuse(refusals::NOT_FAR_AHEAD);
    }
    Ok(decoded(t, w, runner, edges))
}
