// The answer of hard decode as a struct of plain numbers, for callers whose language has no enum with fields. A refusal has its number and its place, and fills every other field with what no found answer has.
ghost use Rattle.std.specs.Prelude.{◌≡◌};
ghost use Rattle.std.specs.Float.{nan};
ghost use Rattle.flat.specs.Flat.{flat, flat_found, flat_refused, list_number, flat_list, flat_position};

use answer::{Answer, Decoded};
use refusals::{EdgePlace, ListName, Refusal};

// The place of a whole number in a refusal: 0xFFFFFFFF, which is no transform, no row and no column, and more than any count.
pub const NOTHING: u32 = 4294967295;

// The place of the refusal in an answer that is none: SAMBUREXT_FOUND in the C header, which is no refusal's number.
pub const NOT_REFUSED: u32 = 0;

// The lists by number. None is 0, so that nothing that was left empty can be taken for one.
const LOGICAL_LIST: u32 = 1;

const PHYSICAL_LIST: u32 = 2;

const ONLY_LIST: u32 = 3;

// The answer of hard decode: refusal is NOT_REFUSED when found. List and position are of the edge that a refusal is about, and NOTHING where it is about none.
#[repr(C)]
#[derive(Clone, Copy)]
pub struct FlatAnswer {
    pub refusal: u32,
    pub list: u32,
    pub position: u32,
    pub transform: u32,
    pub row: u32,
    pub col: u32,
    pub hits: u32,
    pub edges: u32,
    pub weighted_score: f32,
    pub error_rate: f32,
    pub mean_confidence: f32,
    pub best_score: f32,
    pub runner_up_transform: u32,
    pub runner_up_row: u32,
    pub runner_up_col: u32,
    pub runner_up_hits: u32,
    pub margin_hits: u32,
}

// The place of a float in a refusal.
pub fn no_number() -> f32
    ensures { result ≡ nan }
{
    0.0 / 0.0
}

// A list by its number.
fn list_number(list: ListName) -> u32
    ensures { result ≡ list_number list }
{
    match list {
        ListName::Logical => LOGICAL_LIST,
        ListName::Physical => PHYSICAL_LIST,
        ListName::Only => ONLY_LIST,
    }
}

// The list that a refusal points to, by its number, or nothing.
pub fn list_of(place: Option<EdgePlace>) -> u32
    ensures { result ≡ flat_list place }
{
    match place {
        None => NOTHING,
        Some(edge) => {
            let list = edge.list;
            list_number(list)
        }
    }
}

// The position that a refusal points to, from 0, or nothing.
pub fn position_of(place: Option<EdgePlace>) -> u32
    ensures { result ≡ flat_position place }
{
    match place {
        None => NOTHING,
        Some(edge) => edge.position,
    }
}

// A found answer, field by field.
fn found(d: Decoded) -> FlatAnswer
    ensures { result ≡ flat_found d }
{
    let square = d.square;
    let runner = d.runner_up;
    let transform = square.transform as u32;
    let runner_up_transform = runner.transform as u32;
    FlatAnswer {
        refusal: NOT_REFUSED,
        list: NOTHING,
        position: NOTHING,
        transform,
        row: square.row,
        col: square.col,
        hits: d.hits,
        edges: d.edges,
        weighted_score: d.weighted_score,
        error_rate: d.error_rate,
        mean_confidence: d.mean_confidence,
        best_score: d.best_score,
        runner_up_transform,
        runner_up_row: runner.row,
        runner_up_col: runner.col,
        runner_up_hits: d.runner_up_hits,
        margin_hits: d.margin_hits,
    }
}

// A refusal: its number and its place, and nothing that could be taken for a square.
fn refused(refusal: Refusal) -> FlatAnswer
    ensures { result ≡ flat_refused refusal }
{
    let place = refusal.place;
    let list = list_of(place);
    let position = position_of(place);
    let none = no_number();
    FlatAnswer {
        refusal: refusal.number,
        list,
        position,
        transform: NOTHING,
        row: NOTHING,
        col: NOTHING,
        hits: NOTHING,
        edges: NOTHING,
        weighted_score: none,
        error_rate: none,
        mean_confidence: none,
        best_score: none,
        runner_up_transform: NOTHING,
        runner_up_row: NOTHING,
        runner_up_col: NOTHING,
        runner_up_hits: NOTHING,
        margin_hits: NOTHING,
    }
}

// The answer of hard decode as a struct.
pub fn flattened(answer: Answer) -> FlatAnswer
    ensures { result ≡ flat answer }
{
    match answer {
        Ok(d) => found(d),
        Err(refusal) => refused(refusal),
    }
}
