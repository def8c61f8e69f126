// The steps of the scan record: a candidate is offered, a transform is added, and at the end the winner and its runner-up are read off.
ghost use Rattle.std.specs.Prelude.{◌≡◌, ◌≤◌, ◌<◌};
ghost use Rattle.scan.specs.Scan.{over_limit, takes, replaced, offered_within, empty_scan, pushed, stepped, runner_up_of, SoundScan, chosen};
ghost use Rattle.scan.specs.Lead.{lead_of, ahead_of};

use crate::scan::{Asked, Candidate, Choice, HardScan, Kept, RunnerUp, TransformSummary};
use best::lex::beats;

// Whether so many hits are too few for the error limit.
pub fn over_limit(edges: u32, hits: u32, error_limit: f32) -> bool
    requires { (hits ≤ edges) × (edges ≤ 8192) }
    ensures { result ≡ over_limit edges error_limit hits }
{
    figures::rate(edges, hits) > error_limit
}

// What is to be beaten: nothing, or a candidate's hits and score.
#[derive(Clone, Copy)]
pub struct Lead {
    pub some: bool,
    pub hits: u32,
    pub score: f32,
}

// What the kept candidate sets to beat.
pub fn lead_of(kept: Kept) -> Lead
    ensures { result ≡ lead_of kept }
{
    match kept {
        None => Lead {
            some: false,
            hits: 0,
            score: 0.0,
        },
        Some(k) => Lead {
            some: true,
            hits: k.hits,
            score: k.score,
        },
    }
}

// Whether these hits and this score are ahead of it.
pub fn is_ahead(lead: Lead, hits: u32, score: f32) -> bool
    ensures { result ≡ ahead_of lead hits score }
{
    if lead.some {
        return beats(hits, score, lead.hits, lead.score);
    }
    true
}

// Whether a candidate with these hits and this score replaces the kept one.
fn takes_over(kept: Kept, hits: u32, score: f32) -> bool
    ensures { result ≡ takes kept hits score }
{
    is_ahead(lead_of(kept), hits, score)
}

// The kept candidate after one more was offered.
pub fn offer(kept: Kept, c: Candidate) -> Kept
    ensures { result ≡ replaced kept c }
{
    if takes_over(kept, c.hits, c.score) {
        return Some(c);
    }
    kept
}

// The kept candidate after one more was offered that is first tested against the error limit.
pub fn offer_within(kept: Kept, c: Candidate, asked: Asked) -> Kept
    requires { (c.hits ≤ asked.edges) × (asked.edges ≤ 8192) }
    ensures { result ≡ offered_within asked.edges asked.error_limit kept c }
{
    if takes_over(kept, c.hits, c.score) {
        if over_limit(asked.edges, c.hits, asked.error_limit) {
            return kept;
        }
        return Some(c);
    }
    kept
}

// A scan of no transforms.
pub fn empty() -> HardScan
    ensures { result ≡ empty_scan }
{
    let r = RunnerUp {
        hits: 0,
        row: 0,
        col: 0,
        transform: 0,
    };
    let s = TransformSummary { best: r, within: r };
    let summaries = [s; 8];
    let best = None;
    HardScan {
        summaries,
        count: 0,
        best,
    }
}

// One transform more: its summary is stored, and what is kept after it.
pub fn push(scan: HardScan, s: TransformSummary, best: Kept) -> HardScan
    requires { scan.count < 8 }
    ensures { result ≡ pushed scan s best }
{
    let mut summaries = scan.summaries;
    let n = scan.count;
    summaries[n] = s;
    let count = n + 1;
    HardScan {
        summaries,
        count,
        best,
    }
}

// The runner-up so far against one more list position.
fn step(r: RunnerUp, s: TransformSummary, own: bool) -> RunnerUp
    ensures { result ≡ stepped r s own }
{
    if !own && s.best.hits > r.hits {
        return s.best;
    }
    r
}

// The runner-up of the winner at a list position: inside its own transform, then over the other positions in order.
pub fn runner_up(scan: HardScan, winner: usize) -> RunnerUp
    requires { (scan.count ≤ 8) × (winner < scan.count) }
    ensures { result ≡ runner_up_of scan.summaries winner scan.count }
{
    let mut r = scan.summaries[winner].within;
    for i in 0..scan.count {
        r = step(r, scan.summaries[i], i == winner);
    }
    r
}

// What the scan comes to: nothing, or the kept candidate with its runner-up.
pub fn finish(scan: HardScan) -> Choice
    requires { SoundScan scan }
    ensures { result ≡ chosen scan }
{
    let kept = scan.best;
    match kept {
        None => None,
        Some(winner) => {
            let placing = winner.placing;
            let runner_up = runner_up(scan, placing.listed);
            Some((winner, runner_up))
        }
    }
}
