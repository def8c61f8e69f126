// Windows that `worked` decodes with tables, windows of poles, and lists that must be refused. Each confidence is 1 and the limit is 1, where a line does not say otherwise.
use crate::both::show_both;
use runs::cut::{fill_patterns, put_window};
use slices::part::front;
use std::io;

// A window of some squares, cut at a placing of a board whose horizontal table has `length` patterns: its first n edges, with one confidence for all and the first bit turned or not.
fn show_cut(
    rt: &impl Print,
    length: usize,
    squares: u8,
    n: usize,
    transform: u8,
    row: u32,
    col: u32,
    transforms: &[u8],
    confidence: f32,
    turned: bool,
    limit: f32,
) -> io::Result<()> {
    let mut h = [0u8; 500];
    let mut v = [0u8; 167];
    fill_patterns(&mut h, 1);
    fill_patterns(&mut v, 2);
    let board = front(&h, length);
    let mut rows = [0i32; 8193];
    let mut cols = [0i32; 8193];
    let mut orientations = [0u8; 8193];
    let mut bits = [0u8; 8193];
    let count = put_window(
        &mut rows,
        &mut cols,
        &mut orientations,
        &mut bits,
        squares,
        board,
        &v,
        transform,
        row,
        col,
    );
    let some = n.min(count);
    let first = bits[0] % 2;
    bits[0] = if turned { 1 - first } else { first };
    let confidences = [confidence; 8193];
    show_both(
        rt,
        front(&rows, some),
        front(&cols, some),
        front(&orientations, some),
        front(&bits, some),
        front(&confidences, some),
        transforms,
        board,
        &v,
        limit,
    )
}

// A clean window of 12 by 12 squares of such a board.
fn show_window(
    rt: &impl Print,
    name: &str,
    length: usize,
    transform: u8,
    row: u32,
    col: u32,
    transforms: &[u8],
) -> io::Result<()> {
    print!(rt; "{name}")?;
    show_cut(
        rt, length, 12, 8193, transform, row, col, transforms, 1.0, false, 1.0,
    )
}

// The same of the flat board over all transforms, under its placing.
fn show_clean(rt: &impl Print, transform: u8, row: u32, col: u32) -> io::Result<()> {
    print!(rt; "12 by 12 under {transform} at {row}, {col}")?;
    let all = [0u8, 1, 2, 3, 4, 5, 6, 7];
    show_window(rt, "", 167, transform, row, col, &all)
}

// A clean window under each transform.
fn clean(rt: &impl Print) -> io::Result<()> {
    show_clean(rt, 0, 17, 400)?;
    show_clean(rt, 1, 500, 0)?;
    show_clean(rt, 2, 0, 500)?;
    show_clean(rt, 3, 166, 167)?;
    show_clean(rt, 4, 333, 334)?;
    show_clean(rt, 5, 123, 456)?;
    show_clean(rt, 6, 250, 251)?;
    show_clean(rt, 7, 1, 2)
}

// A transform that is listed twice, which wins or does not; the smallest pole and the largest, across the seam.
fn listed_and_poles(rt: &impl Print) -> io::Result<()> {
    let twice = [0u8, 1, 1, 3];
    let rotations = [0u8, 1, 2, 3];
    show_window(
        rt,
        "under 1 at 500, 0, listed twice",
        167,
        1,
        500,
        0,
        &twice,
    )?;
    show_window(
        rt,
        "under 3 at 166, 167, another listed twice",
        167,
        3,
        166,
        167,
        &twice,
    )?;
    show_window(
        rt,
        "a pole of 4, under 0 at 11, 500",
        4,
        0,
        11,
        500,
        &rotations,
    )?;
    show_window(
        rt,
        "a pole of 500, under 0 at 1499, 500",
        500,
        0,
        1499,
        500,
        &rotations,
    )
}

// The first n edges of a window at 17, 400 over the rotations, with a confidence, the first bit turned or not, and a limit.
fn show_list(
    rt: &impl Print,
    name: &str,
    squares: u8,
    n: usize,
    confidence: f32,
    turned: bool,
    limit: f32,
) -> io::Result<()> {
    print!(rt; "{name}")?;
    let rotations = [0u8, 1, 2, 3];
    show_cut(
        rt, 167, squares, n, 0, 17, 400, &rotations, confidence, turned, limit,
    )
}

// The limits of a list's length, one edge alone, and the late refusals.
fn lists(rt: &impl Print) -> io::Result<()> {
    show_list(rt, "8192 edges", 65, 8192, 1.0, false, 1.0)?;
    show_list(rt, "8193 edges", 65, 8193, 1.0, false, 1.0)?;
    show_list(rt, "one edge alone", 1, 1, 1.0, false, 1.0)?;
    show_list(rt, "an empty list", 12, 0, 1.0, false, 1.0)?;
    show_list(rt, "every confidence -0", 12, 8193, -0.0, false, 1.0)?;
    show_list(rt, "every confidence 1.5", 12, 8193, 1.5, false, 1.0)?;
    show_list(
        rt,
        "one edge of 288 missed, limit 0.01",
        12,
        8193,
        1.0,
        true,
        0.01,
    )?;
    show_list(
        rt,
        "one edge of 288 missed, limit 0.001",
        12,
        8193,
        1.0,
        true,
        0.001,
    )
}

// All runs.
pub(crate) fn show_all(rt: &impl Print) -> io::Result<()> {
    clean(rt)?;
    listed_and_poles(rt)?;
    lists(rt)
}
