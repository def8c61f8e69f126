// What the exact scan of a list comes to.
ghost use Rattle.std.specs.Prelude.{◌≡◌, Err};
ghost use Rattle.refusals.specs.Numbers.{numbered, none_within_limit};
ghost use Rattle.exact_scan.specs.Exact.{finished_one, finished, SoundOne, SoundExact};

use crate::kept::{ExactCandidate, ExactScan, ExactSelection, ExactWinner};
use refusals::Refusal;
use scan::record::{over_limit, runner_up};
use scan::scan::HardScan;
use values::table::{hits_of, weight_of};

// The refusal where no placing is within the limit.
fn none_within() -> ExactSelection
    ensures { result ≡ Err (numbered none_within_limit) }
{
    Err(Refusal {
        number: refusals::NONE_WITHIN_LIMIT,
        place: None,
    })
}

// Of the kept placing: refused where its hits are over the limit, since no placing has more; else it is the winner, with its runner-up.
fn finish_one(
    positions: HardScan,
    best: ExactCandidate,
    edges: u32,
    error_limit: f32,
) -> ExactSelection
    requires { SoundOne edges positions best }
    ensures { result ≡ finished_one edges error_limit positions best }
{
    let hits = hits_of(best.value) as u32;
    if over_limit(edges, hits, error_limit) {
        return none_within();
    }
    let weight = weight_of(best.value);
    let placing = best.placing;
    let runner_up = runner_up(positions, placing.listed);
    let winner = ExactWinner {
        hits,
        weight,
        placing,
    };
    Ok((winner, runner_up))
}

// What the scan comes to: refused where nothing is kept, else by the kept placing.
pub fn finish_exact(scan: ExactScan, edges: u32, error_limit: f32) -> ExactSelection
    requires { SoundExact edges scan }
    ensures { result ≡ finished edges error_limit scan }
{
    let kept = scan.best;
    match kept {
        None => none_within(),
        Some(best) => finish_one(scan.positions, best, edges, error_limit),
    }
}
