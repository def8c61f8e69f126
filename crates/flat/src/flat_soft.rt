// The answer of soft decode as a struct of plain numbers. It has two places more than that of hard decode has: the second by likelihood with its score, and the margin of the two.
ghost use Rattle.std.specs.Prelude.{◌≡◌};
ghost use Rattle.flat.specs.FlatSoft.{flat_soft, flat_soft_found, flat_soft_refused};

use crate::flat::{NOT_REFUSED, NOTHING};
use answer::{SoftAnswer, SoftDecoded};
use refusals::Refusal;

// The answer of soft decode: refusal is NOT_REFUSED when found. Scores and the margin are log likelihoods, hits are counts.
#[repr(C)]
#[derive(Clone, Copy)]
pub struct FlatSoft {
    pub refusal: u32,
    pub list: u32,
    pub position: u32,
    pub transform: u32,
    pub row: u32,
    pub col: u32,
    pub hits: u32,
    pub edges: u32,
    pub weighted_score: f32,
    pub error_rate: f32,
    pub mean_confidence: f32,
    pub best_score: f32,
    pub second_transform: u32,
    pub second_row: u32,
    pub second_col: u32,
    pub second_score: f32,
    pub margin: f32,
    pub runner_up_transform: u32,
    pub runner_up_row: u32,
    pub runner_up_col: u32,
    pub runner_up_hits: u32,
}

// A found answer, field by field.
fn found(d: SoftDecoded) -> FlatSoft
    ensures { result ≡ flat_soft_found d }
{
    let square = d.square;
    let second = d.second;
    let runner = d.runner_up;
    let transform = square.transform as u32;
    let second_transform = second.transform as u32;
    let runner_up_transform = runner.transform as u32;
    FlatSoft {
        refusal: NOT_REFUSED,
        list: NOTHING,
        position: NOTHING,
        transform,
        row: square.row,
        col: square.col,
        hits: d.hits,
        edges: d.edges,
        weighted_score: d.weighted_score,
        error_rate: d.error_rate,
        mean_confidence: d.mean_confidence,
        best_score: d.best_score,
        second_transform,
        second_row: second.row,
        second_col: second.col,
        second_score: d.second_score,
        margin: d.margin,
        runner_up_transform,
        runner_up_row: runner.row,
        runner_up_col: runner.col,
        runner_up_hits: d.runner_up_hits,
    }
}

// A refusal: its number and its place, and nothing that could be taken for a square or a score.
fn refused(refusal: Refusal) -> FlatSoft
    ensures { result ≡ flat_soft_refused refusal }
{
    let place = refusal.place;
    let list = crate::flat::list_of(place);
    let position = crate::flat::position_of(place);
    let none = crate::flat::no_number();
    FlatSoft {
        refusal: refusal.number,
        list,
        position,
        transform: NOTHING,
        row: NOTHING,
        col: NOTHING,
        hits: NOTHING,
        edges: NOTHING,
        weighted_score: none,
        error_rate: none,
        mean_confidence: none,
        best_score: none,
        second_transform: NOTHING,
        second_row: NOTHING,
        second_col: NOTHING,
        second_score: none,
        margin: none,
        runner_up_transform: NOTHING,
        runner_up_row: NOTHING,
        runner_up_col: NOTHING,
        runner_up_hits: NOTHING,
    }
}

// The answer of soft decode as a struct.
pub fn flattened_soft(answer: SoftAnswer) -> FlatSoft
    ensures { result ≡ flat_soft answer }
{
    match answer {
        Ok(d) => found(d),
        Err(refusal) => refused(refusal),
    }
}
