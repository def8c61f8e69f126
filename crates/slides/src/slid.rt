// A clean window of seven squares under each transform, and the same window with every edge moved by the same rows and columns. Both lists are the same one, each confidence is 1, the
// limit is 0.25, and all eight transforms are listed.
use admission::call::HardCall;
use answer::Answer;
use board::list::{Edges, List};
use board::pattern::Tables;
use runs::cut::{fill_patterns, put_window};
use runs::print::At;
use slices::part::front;
use std::io;
use wordfile::words::signed;

// A coordinate moved by a number that is given as its word, by two's complement.
fn moved(x: u32, by: u32) -> i32 {
    signed(x.wrapping_add(by))
}

// The rows and columns of a window of seven squares, moved: it has seven horizontal and then seven vertical edges to a row.
fn slide(rows: &mut [i32; 8193], cols: &mut [i32; 8193], down: u32, right: u32) {
    for i in 0..98 {
        rows[i] = moved((i / 14) as u32, down);
        cols[i] = moved((i % 7) as u32, right);
    }
}

// What a found answer says that slides, and what stays, in one line; or the number of its refusal.
fn print_answer(rt: &impl Print, answer: Answer) -> io::Result<()> {
    match answer {
        Ok(d) => println!(rt;
            "{}, hits {}, runner-up hits {}",
            At(d.square),
            d.hits,
            d.runner_up_hits,
        ),
        Err(r) => println!(rt; "refused: {}", r.number),
    }
}

// Hard decode of the first n edges.
fn decode<'a>(
    rows: &'a [i32; 8193],
    cols: &'a [i32; 8193],
    orientations: &'a [u8; 8193],
    bits: &'a [u8; 8193],
    n: usize,
    h: &'a [u8],
    v: &'a [u8],
) -> Answer {
    let confidences = [1.0f32; 8193];
    let transforms = [0u8, 1, 2, 3, 4, 5, 6, 7];
    let mut counts = [0u32; 3006];
    let mut weights = [0.0f32; 3006];
    let r = front(rows, n);
    let c = front(cols, n);
    let o = front(orientations, n);
    let b = front(bits, n);
    let f = front(&confidences, n);
    let list = List {
        edges: Edges {
            rows: r,
            cols: c,
            orientations: o,
            bits: b,
        },
        confidences: f,
    };
    let call = HardCall {
        logical: list,
        physical: list,
        transforms: &transforms,
        tables: Tables { h, v },
        error_limit: 0.25,
    };
    decode_hard::decode_hard(call, &mut counts, &mut weights)
}

// A window cut at a placing and slid so many rows down and columns to the right, with the shift in words of its own.
fn show(
    rt: &impl Print,
    length: u16,
    transform: u8,
    row: u32,
    col: u32,
    shift: &str,
    down: u32,
    right: u32,
) -> io::Result<()> {
    let mut h = [0u8; 167];
    let mut v = [0u8; 167];
    fill_patterns(&mut h, 1);
    fill_patterns(&mut v, 2);
    let board = front(&h, length as usize);
    let mut rows = [0i32; 8193];
    let mut cols = [0i32; 8193];
    let mut orientations = [0u8; 8193];
    let mut bits = [0u8; 8193];
    let n = put_window(
        &mut rows,
        &mut cols,
        &mut orientations,
        &mut bits,
        7,
        board,
        &v,
        transform,
        row,
        col,
    );
    slide(&mut rows, &mut cols, down, right);
    print!(rt; "  slid by {shift}: ")?;
    print_answer(rt, decode(&rows, &cols, &orientations, &bits, n, board, &v))
}

// One transform, with shifts past both seams and below zero.
fn show_shifts(rt: &impl Print, length: u16, transform: u8, row: u32, col: u32) -> io::Result<()> {
    println!(rt; "cut under {transform} at {row}, {col}")?;
    show(rt, length, transform, row, col, "0, 0", 0, 0)?;
    show(rt, length, transform, row, col, "1, -2", 1, 4294967294)?;
    show(rt, length, transform, row, col, "-3, 5", 4294967293, 5)?;
    show(rt, length, transform, row, col, "250, 251", 250, 251)?;
    show(
        rt,
        length,
        transform,
        row,
        col,
        "501, -501",
        501,
        4294966795,
    )?;
    show(
        rt,
        length,
        transform,
        row,
        col,
        "-1000, 999",
        4294966296,
        999,
    )
}

// All eight.
pub(crate) fn show_all(rt: &impl Print, length: u16, row: u32, col: u32) -> io::Result<()> {
    for transform in 0..8 {
        show_shifts(rt, length, transform, row, col)?;
    }
    Ok(())
}
