// The answer of the engine without tables as a struct of plain numbers, for callers whose language has no enum with fields. A refusal has its number and its place, and fills every other field with what no found answer has.
#![tactic(auto)]

ghost use Rattle.std.specs.Prelude.{◌≡◌};
ghost use Rattle.flat_located.specs.FlatLocated.{flat_located, flat_located_found, flat_located_refused};

use flat::flat::{NOT_REFUSED, NOTHING};
use locate_answer::{LocateAnswer, Located};
use refusals::Refusal;

// The answer of the engine without tables: refusal is NOT_REFUSED when found. Eleven fields of four bytes.
#[repr(C)]
#[derive(Clone, Copy)]
pub struct FlatLocated {
    pub refusal: u32,
    pub list: u32,
    pub position: u32,
    pub transform: u32,
    pub row: u32,
    pub col: u32,
    pub hits: u32,
    pub runner_up_transform: u32,
    pub runner_up_row: u32,
    pub runner_up_col: u32,
    pub runner_up_hits: u32,
}

// What is found, field by field.
fn found(l: Located) -> FlatLocated
    ensures { result ≡ flat_located_found l }
{
    let square = l.square;
    let runner = l.runner_up;
    let transform = square.transform as u32;
    let runner_up_transform = runner.transform as u32;
    FlatLocated {
        refusal: NOT_REFUSED,
        list: NOTHING,
        position: NOTHING,
        transform,
        row: square.row,
        col: square.col,
        hits: l.hits,
        runner_up_transform,
        runner_up_row: runner.row,
        runner_up_col: runner.col,
        runner_up_hits: l.runner_up_hits,
    }
}

// A refusal: its number and its place, and nothing that could be taken for a square.
fn refused(refusal: Refusal) -> FlatLocated
    ensures { result ≡ flat_located_refused refusal }
{
    let place = refusal.place;
    let list = flat::flat::list_of(place);
    let position = flat::flat::position_of(place);
    FlatLocated {
        refusal: refusal.number,
        list,
        position,
        transform: NOTHING,
        row: NOTHING,
        col: NOTHING,
        hits: NOTHING,
        runner_up_transform: NOTHING,
        runner_up_row: NOTHING,
        runner_up_col: NOTHING,
        runner_up_hits: NOTHING,
    }
}

// The answer of the engine without tables as a struct.
pub fn flattened_located(answer: LocateAnswer) -> FlatLocated
    ensures { result ≡ flat_located answer }
{
    match answer {
        Ok(l) => found(l),
        Err(refusal) => refused(refusal),
    }
}
