// The answer of decode over a part as a struct of plain numbers, for callers whose language has no enum with fields. A runner-up that is not shown, and a refusal, fill their fields with what nothing shown has.
#![tactic(auto)]

ghost use Rattle.std.specs.Prelude.{◌≡◌};
ghost use Rattle.flat_part.specs.FlatPart.{flat_next, flat_part, flat_part_found, flat_part_refused};

use flat::flat::{NOT_REFUSED, NOTHING};
use flat_exact::NO_WEIGHT;
use part_answer::{PartAnswer, PartDecoded, PartRunnerUp};
use refusals::Refusal;

// The answer of decode over a part: refusal is NOT_REFUSED when found. Fourteen fields of four bytes come first and three of eight after them, so that none is parted from the next by unused bytes.
// Weights are whole numbers of 2^-24.
#[repr(C)]
#[derive(Clone, Copy)]
pub struct FlatPart {
    pub refusal: u32,
    pub list: u32,
    pub position: u32,
    pub transform: u32,
    pub row: u32,
    pub col: u32,
    pub hits: u32,
    pub edges: u32,
    pub error_rate: f32,
    pub runner_up_transform: u32,
    pub runner_up_row: u32,
    pub runner_up_col: u32,
    pub runner_up_hits: u32,
    pub margin_hits: u32,
    pub weight: u64,
    pub total: u64,
    pub runner_up_weight: u64,
}

// What a found answer says of its runner-up, and how many hits the square has more.
#[derive(Clone, Copy)]
pub struct FlatNext {
    pub next_transform: u32,
    pub next_row: u32,
    pub next_col: u32,
    pub next_hits: u32,
    pub next_margin: u32,
    pub next_weight: u64,
}

// The runner-up of a square with so many hits. Where none is shown there is no square and no count, and the hits of none are 0.
fn next_of(hits: u32, next: PartRunnerUp) -> FlatNext
    ensures { result ≡ flat_next hits next }
{
    match next {
        None => FlatNext {
            next_transform: NOTHING,
            next_row: NOTHING,
            next_col: NOTHING,
            next_hits: NOTHING,
            next_margin: hits,
            next_weight: NO_WEIGHT,
        },
        Some((square, behind, weight)) => {
            let next_transform = square.transform as u32;
            let next_margin = flat_exact::ahead(hits, behind);
            FlatNext {
                next_transform,
                next_row: square.row,
                next_col: square.col,
                next_hits: behind,
                next_margin,
                next_weight: weight,
            }
        }
    }
}

// A found answer, field by field.
fn found(d: PartDecoded) -> FlatPart
    ensures { result ≡ flat_part_found d }
{
    let square = d.square;
    let transform = square.transform as u32;
    let shown = d.runner_up;
    let next = next_of(d.hits, shown);
    FlatPart {
        refusal: NOT_REFUSED,
        list: NOTHING,
        position: NOTHING,
        transform,
        row: square.row,
        col: square.col,
        hits: d.hits,
        edges: d.edges,
        error_rate: d.error_rate,
        runner_up_transform: next.next_transform,
        runner_up_row: next.next_row,
        runner_up_col: next.next_col,
        runner_up_hits: next.next_hits,
        margin_hits: next.next_margin,
        weight: d.weight,
        total: d.total,
        runner_up_weight: next.next_weight,
    }
}

// A refusal: its number and its place, and nothing that could be taken for a square or a weight.
fn refused(refusal: Refusal) -> FlatPart
    ensures { result ≡ flat_part_refused refusal }
{
    let place = refusal.place;
    let list = flat::flat::list_of(place);
    let position = flat::flat::position_of(place);
    let none = flat::flat::no_number();
    FlatPart {
        refusal: refusal.number,
        list,
        position,
        transform: NOTHING,
        row: NOTHING,
        col: NOTHING,
        hits: NOTHING,
        edges: NOTHING,
        error_rate: none,
        runner_up_transform: NOTHING,
        runner_up_row: NOTHING,
        runner_up_col: NOTHING,
        runner_up_hits: NOTHING,
        margin_hits: NOTHING,
        weight: NO_WEIGHT,
        total: NO_WEIGHT,
        runner_up_weight: NO_WEIGHT,
    }
}

// The answer of decode over a part as a struct.
pub fn flattened_part(answer: PartAnswer) -> FlatPart
    ensures { result ≡ flat_part answer }
{
    match answer {
        Ok(d) => found(d),
        Err(refusal) => refused(refusal),
    }
}
