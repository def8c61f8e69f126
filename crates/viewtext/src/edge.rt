// One edge of a view, as a line of the file gives it: `h` or `v`, row, column, bit, confidence, and for soft decode the log likelihoods of a match and of a mismatch.
use crate::fault::{Expected, Fault};
use crate::field::next_number;
use crate::text::Line;

// Which way an edge runs, by the number that the decoder has for it.
#[derive(Clone, Copy)]
pub(crate) enum Orientation {
    Horizontal = 0,
    Vertical = 1,
}

// The log likelihoods of a match and of a mismatch.
#[derive(Clone, Copy)]
pub(crate) struct Likelihoods {
    pub(crate) hit: f32,
    pub(crate) miss: f32,
}

// An edge that was read.
#[derive(Clone, Copy)]
pub(crate) struct Edge {
    pub(crate) orientation: Orientation,
    pub(crate) row: i32,
    pub(crate) col: i32,
    pub(crate) bit: u8,
    pub(crate) confidence: f32,
    pub(crate) likelihoods: Option<Likelihoods>,
}

impl Edge {
    // The edge that the rest of a line gives, after the letter that says its orientation.
    pub(crate) fn read(line: &mut Line, orientation: Orientation) -> Result<Edge, Fault> {
        let row = next_number(line, Expected::Row)?.signed_digits();
        let col = next_number(line, Expected::Column)?.signed_digits();
        let bit = (next_number(line, Expected::Bit)?.digits() == 1) as u8;
        let confidence = next_number(line, Expected::Confidence)?.to_f32();
        let likelihoods = next_likelihoods(line)?;
        line.end(Expected::LineEnd)?;
        Ok(Edge {
            orientation,
            row,
            col,
            bit,
            confidence,
            likelihoods,
        })
    }
}

// The log likelihoods that a line ends with; none where it has ended before them.
fn next_likelihoods(line: &mut Line) -> Result<Option<Likelihoods>, Fault> {
    if line.is_read() {
        return Ok(None);
    }
    let hit = next_number(line, Expected::Match)?.to_f32();
    let miss = next_number(line, Expected::Mismatch)?.to_f32();
    Ok(Some(Likelihoods { hit, miss }))
}
