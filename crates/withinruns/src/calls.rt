// Poles, the limits of a list's length, and calls that must be refused before any edge is looked at, though the first edge is bad.
use crate::both::{Bad, Fields, show_cut};
use std::io;

// A list without misses at its own placing.
fn show_list(
    rt: &impl Print,
    name: &str,
    length: usize,
    squares: u8,
    n: usize,
    limit: f32,
) -> io::Result<()> {
    show_cut(rt, name, length, squares, n, 0, 0, None, 0, 2, 400, limit)
}

// A call whose first edge is bad.
fn show_bad(
    rt: &impl Print,
    name: &str,
    length: usize,
    transform: u8,
    row: u32,
    col: u32,
    limit: f32,
) -> io::Result<()> {
    let first = Bad {
        at: 0,
        fields: Fields::All,
    };
    show_cut(
        rt,
        name,
        length,
        12,
        8193,
        0,
        0,
        Some(first),
        transform,
        row,
        col,
        limit,
    )
}

// All runs.
pub(crate) fn show_all(rt: &impl Print) -> io::Result<()> {
    show_list(rt, "a pole of 4", 4, 12, 8193, 0.5)?;
    show_list(rt, "a pole of 500", 500, 12, 8193, 0.5)?;
    show_list(rt, "8192 edges, limit 0", 167, 65, 8192, 0.0)?;
    show_list(rt, "8193 edges", 167, 65, 8193, 0.0)?;
    show_list(rt, "no edges, limit 1", 167, 12, 0, 1.0)?;
    show_list(rt, "no edges, limit 0.9999", 167, 12, 0, 0.9999)?;
    show_list(rt, "no edges, limit 0", 167, 12, 0, 0.0)?;
    show_bad(rt, "the first edge bad, limit 1", 167, 0, 2, 400, 1.0)?;
    show_bad(rt, "the first edge bad, limit 0.5", 167, 0, 2, 400, 0.5)?;
    show_bad(rt, "transform 8", 167, 8, 2, 400, 0.5)?;
    show_bad(rt, "a horizontal table of 6", 6, 0, 2, 400, 0.5)?;
    show_bad(
        rt,
        "transform 8 and a horizontal table of 6",
        6,
        8,
        2,
        400,
        0.5,
    )?;
    show_bad(rt, "row 501 of the flat board", 167, 0, 501, 400, 0.5)?;
    show_bad(rt, "column 501", 167, 0, 2, 501, 0.5)?;
    show_bad(rt, "limit 1.5", 167, 0, 2, 400, 1.5)?;
    show_bad(rt, "limit below 0", 167, 0, 2, 400, -0.5)?;
    show_bad(rt, "limit no number", 167, 0, 2, 400, 0.0 / 0.0)
}
