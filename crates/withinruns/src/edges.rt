// Bad edges just before the stop, where they are read, and just after it, where they are not.
use crate::both::{Bad, Fields, show_cut};
use std::io;

// A window of which the first 73 edges are missed, at the limit 0.25: the answer is no after 73 edges. The edge at a position is bad in some fields.
fn show_no(rt: &impl Print, name: &str, at: usize, fields: Fields) -> io::Result<()> {
    let bad = Some(Bad { at, fields });
    show_cut(rt, name, 167, 12, 8193, 0, 73, bad, 0, 2, 400, 0.25)
}

// A window without misses, at the limit 0.25: the answer is yes after 216 edges.
fn show_yes(rt: &impl Print, name: &str, at: usize, fields: Fields) -> io::Result<()> {
    let bad = Some(Bad { at, fields });
    show_cut(rt, name, 167, 12, 8193, 0, 0, bad, 0, 2, 400, 0.25)
}

// All runs.
pub(crate) fn show_all(rt: &impl Print) -> io::Result<()> {
    show_no(
        rt,
        "no after 73, the first edge bad in all fields",
        0,
        Fields::All,
    )?;
    show_no(
        rt,
        "no after 73, position 72 bad in all fields",
        72,
        Fields::All,
    )?;
    show_no(
        rt,
        "no after 73, position 72 bad in all but the row",
        72,
        Fields::AllButRow,
    )?;
    show_no(
        rt,
        "no after 73, position 72 bad in bit and confidence",
        72,
        Fields::BitAndConfidence,
    )?;
    show_no(
        rt,
        "no after 73, position 72 bad in its confidence",
        72,
        Fields::Confidence,
    )?;
    show_no(
        rt,
        "no after 73, position 73 bad in all fields",
        73,
        Fields::All,
    )?;
    show_no(
        rt,
        "no after 73, the last edge bad in its confidence",
        287,
        Fields::Confidence,
    )?;
    show_yes(
        rt,
        "yes after 216, position 215 bad in its confidence",
        215,
        Fields::Confidence,
    )?;
    show_yes(
        rt,
        "yes after 216, position 216 bad in its confidence",
        216,
        Fields::Confidence,
    )
}
