// The verdict on the winners of a part (request C-20), by value: whether they agree, the gate, and the found answer put together.
#![tactic(auto)]

ghost use Rattle.std.specs.Prelude.{◌≡◌, ◌≤◌};
ghost use Rattle.part_verdict.specs.PartVerdict.{hits_shown, part_decoded_of, part_judged};

use answer::Square;
use exact_scan::kept::ExactWinner;
use part_answer::{PartAnswer, PartDecoded, PartRunnerUp};
use refusals::Refusal;

// The hits of the runner-up: 0 where none is shown.
fn hits_shown(next: PartRunnerUp) -> u32
    ensures { result ≡ hits_shown next }
{
    match next {
        None => 0,
        Some((_, hits, _)) => hits,
    }
}

// What a found answer says of the winner w under transform t, with what is shown beside it, where all edges weigh `total`.
fn decoded_part(t: u8, w: ExactWinner, next: PartRunnerUp, edges: u32, total: u64) -> PartDecoded
    requires { (w.hits ≤ edges) × (edges ≤ 8192) }
    ensures { result ≡ part_decoded_of t w next edges total }
{
    let square = Square {
        transform: t,
        row: w.placing.row,
        col: w.placing.col,
    };
    let error_rate = figures::rate(edges, w.hits);
    PartDecoded {
        square,
        hits: w.hits,
        edges,
        weight: w.weight,
        total,
        error_rate,
        runner_up: next,
    }
}

// The logical winner w under transform t, with what is shown beside it, judged against the physical winner p under transform s: they disagree, it is not far ahead, or found.
pub fn judge_part(
    t: u8,
    w: ExactWinner,
    next: PartRunnerUp,
    s: u8,
    p: ExactWinner,
    edges: u32,
    total: u64,
) -> PartAnswer
    requires { (w.hits ≤ edges) × (edges ≤ 8192) }
    ensures { result ≡ part_judged t w next s p edges total }
{
    let behind = hits_shown(next);
    if t == s {
        if w.placing.row == p.placing.row {
            if w.placing.col == p.placing.col {
                if figures::passes(edges, w.hits, behind) {
                    let found = decoded_part(t, w, next, edges, total);
                    return Ok(found);
                }
                return Err(Refusal {
                    number: refusals::NOT_FAR_AHEAD,
                    place: None,
                });
            }
        }
    }
    Err(Refusal {
        number: refusals::LISTS_DISAGREE,
        place: None,
    })
}
