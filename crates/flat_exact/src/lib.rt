// The answer of exact decode as a struct of plain numbers, for callers whose language has no enum with fields. A refusal has its number and its place, and fills every other field with what no found answer has.
#![tactic(auto)]

ghost use Rattle.std.specs.Prelude.{◌≡◌, ◌-◌};
ghost use Rattle.flat_exact.specs.FlatExact.{flat_exact, flat_exact_found, flat_exact_refused};

use exact_answer::{ExactAnswer, ExactDecoded};
use flat::flat::{NOT_REFUSED, NOTHING};
use refusals::Refusal;

// The place of a weight in a refusal: 0xFFFFFFFFFFFFFFFF, which is more than any list weighs.
pub const NO_WEIGHT: u64 = 18446744073709551615;

// The answer of exact decode: refusal is NOT_REFUSED when found. Fourteen fields of four bytes come first and three of eight after them, so that none is parted from the next by unused bytes. Weights
// are whole numbers of 2^-24.
#[repr(C)]
#[derive(Clone, Copy)]
pub struct FlatExact {
    pub refusal: u32,
    pub list: u32,
    pub position: u32,
    pub transform: u32,
    pub row: u32,
    pub col: u32,
    pub hits: u32,
    pub edges: u32,
    pub error_rate: f32,
    pub runner_up_transform: u32,
    pub runner_up_row: u32,
    pub runner_up_col: u32,
    pub runner_up_hits: u32,
    pub margin_hits: u32,
    pub weight: u64,
    pub total: u64,
    pub runner_up_weight: u64,
}

// How many hits one has more than the other; none where it has not more.
pub fn ahead(hits: u32, others: u32) -> u32
    ensures { result ≡ hits - others }
{
    if hits < others {
        return 0;
    }
    hits - others
}

// A found answer, field by field, and the hits ahead of the runner-up.
fn found(d: ExactDecoded) -> FlatExact
    ensures { result ≡ flat_exact_found d }
{
    let square = d.square;
    let runner = d.runner_up;
    let transform = square.transform as u32;
    let runner_up_transform = runner.transform as u32;
    let margin_hits = ahead(d.hits, d.runner_up_hits);
    FlatExact {
        refusal: NOT_REFUSED,
        list: NOTHING,
        position: NOTHING,
        transform,
        row: square.row,
        col: square.col,
        hits: d.hits,
        edges: d.edges,
        error_rate: d.error_rate,
        runner_up_transform,
        runner_up_row: runner.row,
        runner_up_col: runner.col,
        runner_up_hits: d.runner_up_hits,
        margin_hits,
        weight: d.weight,
        total: d.total,
        runner_up_weight: d.runner_up_weight,
    }
}

// A refusal: its number and its place, and nothing that could be taken for a square or a weight.
fn refused(refusal: Refusal) -> FlatExact
    ensures { result ≡ flat_exact_refused refusal }
{
    let place = refusal.place;
    let list = flat::flat::list_of(place);
    let position = flat::flat::position_of(place);
    let none = flat::flat::no_number();
    FlatExact {
        refusal: refusal.number,
        list,
        position,
        transform: NOTHING,
        row: NOTHING,
        col: NOTHING,
        hits: NOTHING,
        edges: NOTHING,
        error_rate: none,
        runner_up_transform: NOTHING,
        runner_up_row: NOTHING,
        runner_up_col: NOTHING,
        runner_up_hits: NOTHING,
        margin_hits: NOTHING,
        weight: NO_WEIGHT,
        total: NO_WEIGHT,
        runner_up_weight: NO_WEIGHT,
    }
}

// The answer of exact decode as a struct.
pub fn flattened_exact(answer: ExactAnswer) -> FlatExact
    ensures { result ≡ flat_exact answer }
{
    match answer {
        Ok(d) => found(d),
        Err(refusal) => refused(refusal),
    }
}
