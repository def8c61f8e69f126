// Two cameras, one board (request C-23): how far the second camera's square lies from the first one's. It knows what hard decode answers, and nothing of how.
#![tactic(auto)]

ghost use Rattle.std.specs.Prelude.{◌≡◌, ◌≤◌};
ghost use Rattle.answer_checks.specs.FoundBad.{FoundFits};
ghost use Rattle.stereo.specs.Stereo.{ahead, shift_of, off_board, refused_by, shift_found, both_found, shift_between, OnBoard};

use answer::{Answer, Decoded, Square};
use answer_checks::found_bad;

// The numbers of the refusals that this request brings.
pub const VIEW_REFUSED: u32 = 22; // an answer is a refusal

pub const TRANSFORMS_DIFFER: u32 = 23; // the cameras see the board under two transforms

// The camera that a refusal is about: the first or the second one given, or the pair.
#[derive(Clone, Copy)]
pub enum Camera {
    First,
    Second,
    Pair,
}

// From the first camera's origin to the second one's: rows and columns, each from -250 to 250; and the hits and misses of both views together.
#[derive(Clone, Copy)]
pub struct Shift {
    pub rows: i32,
    pub cols: i32,
    pub hits: u32,
    pub misses: u32,
}

// The shift, or a refusal: its number, and the camera that it is about.
pub type StereoAnswer = Result<Shift, (u32, Camera)>;

// How many rows or columns b is beyond a, going forward round the board: 0 to 500.
fn ahead(a: u32, b: u32) -> u32
    requires { (a ≤ 500) × (b ≤ 500) }
    ensures { (result ≡ ahead a b) × (result ≤ 500) }
{
    (b + 501 - a) % 501
}

// The one number from -250 to 250 that leads from a to b round the board.
fn shift_of(a: u32, b: u32) -> i32
    requires { (a ≤ 500) × (b ≤ 500) }
    ensures { result ≡ shift_of a b }
{
    let d = ahead(a, b);
    if d <= 250 {
        return d as i32;
    }
    d as i32 - 501
}

// Whether a square's origin is off the flat board.
fn off_board(square: Square) -> bool
    ensures { result ≡ off_board square }
{
    if square.row > 500 {
        return true;
    }
    square.col > 500
}

// The shift of two found answers that fit themselves and the board.
fn shift_found(d: Decoded, e: Decoded) -> Shift
    requires on_board { OnBoard d.square × OnBoard e.square }
    requires found_fits { FoundFits d × FoundFits e }
    ensures { result ≡ shift_found d e }
{
    let from = d.square;
    let to = e.square;
    let rows = shift_of(from.row, to.row);
    let cols = shift_of(from.col, to.col);
    let hits = d.hits + e.hits;
    let misses = d.edges - d.hits + (e.edges - e.hits);
    Shift {
        rows,
        cols,
        hits,
        misses,
    }
}

// Two found answers: 23 where their transforms differ, 9 where an origin is off the board, 25 where one does not fit itself, the first camera first; else the shift.
fn both_found(d: Decoded, e: Decoded) -> StereoAnswer
    ensures { result ≡ both_found d e }
{
    if d.square.transform != e.square.transform {
        return Err((TRANSFORMS_DIFFER, Camera::Pair));
    }
    if off_board(d.square) {
        return Err((refusals::BAD_SETTING, Camera::First));
    }
    if off_board(e.square) {
        return Err((refusals::BAD_SETTING, Camera::Second));
    }
    if found_bad(d) {
        return Err((answer_checks::BAD_FIGURES, Camera::First));
    }
    if found_bad(e) {
        return Err((answer_checks::BAD_FIGURES, Camera::Second));
    }
    let shift = shift_found(d, e);
    Ok(shift)
}

// The shift between two cameras by their hard answers, for all inputs: 22 where either is a refusal, naming the first camera where both are; else as above.
pub fn shift_between(first: Answer, second: Answer) -> StereoAnswer
    ensures { result ≡ shift_between first second }
{
    match first {
        Err(_) => Err((VIEW_REFUSED, Camera::First)),
        Ok(d) => match second {
            Err(_) => Err((VIEW_REFUSED, Camera::Second)),
            Ok(e) => both_found(d, e),
        },
    }
}
