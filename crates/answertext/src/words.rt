// What numbers mean in words.
use crate::told::How;
use answer::Square;
use refusals::ListName;
use std::fmt;

// How the board lies in the view under a transform: the turn that the view shows of the board as printed.
pub(crate) fn orientation_of(transform: u8) -> &'static str {
    match transform {
        0 => "as printed",
        1 => "turned a quarter counter-clockwise",
        2 => "turned upside down (half a turn)",
        3 => "turned a quarter clockwise",
        4 => "mirrored, left and right swapped",
        5 => "mirrored, rows and columns swapped",
        6 => "mirrored, top and bottom swapped",
        7 => "mirrored, rows and columns swapped, upside down",
        _ => "unknown",
    }
}

// The same by two directions: where on the board one goes when one goes right, and down, in the view.
pub(crate) fn directions_of(transform: u8) -> &'static str {
    match transform {
        0 => "right in the view is right on the board, down is down",
        1 => "right in the view is down on the board, down is left",
        2 => "right in the view is left on the board, down is up",
        3 => "right in the view is up on the board, down is right",
        4 => "right in the view is left on the board, down is down",
        5 => "right in the view is down on the board, down is right",
        6 => "right in the view is right on the board, down is up",
        7 => "right in the view is up on the board, down is left",
        _ => "unknown",
    }
}

// A square where one of another list or rank is told of: its place, and how the board lies there.
#[derive(Clone, Copy)]
pub(crate) struct Other(pub Square);

impl fmt::Display for Other {
    fn fmt<W: fmt::Write>(&self, f: &mut fmt::Formatter<W>) -> fmt::Result {
        let Other(square) = *self;
        let transform = square.transform;
        let orientation = orientation_of(transform);
        write!(
            f,
            "row {}, column {}, {orientation} (transform {transform})",
            square.row, square.col
        )
    }
}

// How a view was decoded, in a word for programs.
impl fmt::Display for How {
    fn fmt<W: fmt::Write>(&self, f: &mut fmt::Formatter<W>) -> fmt::Result {
        f.write_str(match self {
            How::Hard => "hard",
            How::Soft => "soft",
            How::Exact => "exact",
            How::Located => "no-tables",
        })
    }
}

// The same for people.
pub(crate) fn decoding_of(how: How) -> &'static str {
    match how {
        How::Hard => "hard, by hits (the view has no log likelihoods)",
        How::Soft => "soft, by log likelihoods and then by hits",
        How::Exact => "exact, by hits and then by weight in units of 2^-24 (--exact)",
        How::Located => "without tables, by the hits of the logical list alone (--no-tables)",
    }
}

// What a refusal's number means, by how the view was decoded. A file that was read cannot provoke most of the early refusals: its reader names the line instead.
pub(crate) fn meaning_of(number: u32, how: How) -> &'static str {
    match number {
        refusals::ROOM_TOO_SHORT => "the room that the program lends is too short",
        refusals::LENGTHS_DIFFER => "the columns of a list differ in length",
        refusals::LIST_SIZE => "a list has no edges, or more than 8192",
        refusals::BAD_COORDINATE => "a row or a column is out of its range",
        refusals::BAD_CONFIDENCE => "a confidence is not from 0 to 1",
        refusals::BAD_LIKELIHOOD => "a log likelihood is not from -65536 to 65536",
        refusals::BAD_TRANSFORM => "there are not 1 to 8 transforms, each from 0 to 7",
        refusals::BAD_TABLE =>
            "the horizontal pattern table does not have 4 to 500 entries from 0 to 7, their number no multiple of 3, or the vertical one not 167",
        refusals::BAD_SETTING => "the error limit or the soft margin is out of its range",
        refusals::NO_CONFIDENCE => no_confidence(how),
        refusals::NONE_WITHIN_LIMIT => "no square of the board fits within the error limit",
        refusals::LISTS_DISAGREE => "the logical and the physical list point to different squares",
        refusals::NOT_FAR_AHEAD => "the best square is not far enough ahead of the next best",
        refusals::SOFT_MARGIN =>
            "by likelihood the two best squares are closer than the soft margin",
        refusals::SOFT_HARD_DISAGREE => "likelihoods and hits point to different squares",
        refusals::BAD_ORIENTATION => "an orientation is neither 0 (horizontal) nor 1 (vertical)",
        refusals::BAD_BIT => "a bit is neither 0 nor 1",
        _ => "unknown",
    }
}

// What it means that a list has no weight: exact decode counts in units, where confidences may still be above 0.
fn no_confidence(how: How) -> &'static str {
    match how {
        How::Exact =>
            "no edge of a list was seen with any confidence; below 2^-25 (0.00000003) counts as none here",
        _ => "no edge of a list was seen with any confidence",
    }
}

// What the operator can do about a refusal, by how the view was decoded.
pub(crate) fn advice_of(number: u32, how: How) -> &'static str {
    match number {
        refusals::LIST_SIZE => "give each list that the view names 1 to 8192 edges",
        refusals::NO_CONFIDENCE => more_confidence(how),
        refusals::NONE_WITHIN_LIMIT =>
            "check that this is the right board, better the light or the focus, allow mirrored transforms if there is a mirror, or raise the limit",
        refusals::LISTS_DISAGREE =>
            "take the picture again; if it stays so, check how the logical list is made",
        refusals::NOT_FAR_AHEAD => "show more of the board, or better the light or the focus",
        refusals::SOFT_MARGIN => "show more of the board, or lower the margin",
        refusals::SOFT_HARD_DISAGREE =>
            "take the picture again; if it stays so, check how the likelihoods are made",
        _ => "check the files and how they were made",
    }
}

// What the operator can do where a list has no weight.
fn more_confidence(how: How) -> &'static str {
    match how {
        How::Exact =>
            "take the picture again with better light or focus; where confidences are that small, decode without --exact",
        _ => "take the picture again with better light or focus",
    }
}

// The name of a list.
pub(crate) fn name_of(list: ListName) -> &'static str {
    match list {
        ListName::Logical => "logical",
        ListName::Physical => "physical",
        ListName::Only => "only",
    }
}

// A remark where the file gave no setting of its own.
pub(crate) fn remark(own: bool) -> &'static str {
    if own { "" } else { " (default)" }
}
