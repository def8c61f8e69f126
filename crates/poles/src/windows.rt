// Hard and soft decode of clean windows of poles, cut across the seam. Both lists are the same one, each confidence is 0.5, each match has a log likelihood of -0.125 and each
// mismatch one of -4, the limit is 0.25, the four rotations are listed. The room is just enough, in arrays that hold 7 before.
use admission::call::{HardCall, SoftCall};
use board::list::{Edges, List};
use board::pattern::Tables;
use likelihood::Likelihoods;
use runs::cut::{fill_patterns, put_window};
use runs::lent::{print_room, print_sums};
use runs::print::{print_answer, print_soft_answer};
use slices::part::{front, front_mut};
use std::io;

// What a pole of that length asks of the u32 and of the f32 room, and of the i64 room.
fn tables_room(length: u16) -> usize {
    9 * (length as usize) + 1503
}

fn sums_room(length: u16) -> usize {
    15 * (length as usize) + 2505
}

// Hard decode of the first n edges.
fn show_hard<'a>(
    rt: &impl Print,
    rows: &'a [i32; 8193],
    cols: &'a [i32; 8193],
    orientations: &'a [u8; 8193],
    bits: &'a [u8; 8193],
    n: usize,
    h: &'a [u8],
    v: &'a [u8],
    room: usize,
) -> io::Result<()> {
    let confidences = [0.5f32; 8193];
    let transforms = [0u8, 1, 2, 3];
    let mut counts = [7u32; 6007];
    let mut weights = [7.0f32; 6007];
    let r = front(rows, n);
    let c = front(cols, n);
    let o = front(orientations, n);
    let b = front(bits, n);
    let f = front(&confidences, n);
    let list = List {
        edges: Edges {
            rows: r,
            cols: c,
            orientations: o,
            bits: b,
        },
        confidences: f,
    };
    let call = HardCall {
        logical: list,
        physical: list,
        transforms: &transforms,
        tables: Tables { h, v },
        error_limit: 0.25,
    };
    let answer = decode_hard::decode_hard(
        call,
        front_mut(&mut counts, room),
        front_mut(&mut weights, room),
    );
    print!(rt; "  hard: ")?;
    print_answer(rt, answer)?;
    print_room(rt, &counts, &weights)?;
    println!(rt; "")
}

// Soft decode of them.
fn show_soft<'a>(
    rt: &impl Print,
    rows: &'a [i32; 8193],
    cols: &'a [i32; 8193],
    orientations: &'a [u8; 8193],
    bits: &'a [u8; 8193],
    n: usize,
    h: &'a [u8],
    v: &'a [u8],
    room: usize,
    sums_room: usize,
) -> io::Result<()> {
    let confidences = [0.5f32; 8193];
    let matches = [-0.125f32; 8193];
    let mismatches = [-4.0f32; 8193];
    let transforms = [0u8, 1, 2, 3];
    let mut counts = [7u32; 6007];
    let mut weights = [7.0f32; 6007];
    let mut sums = [7i64; 10009];
    let r = front(rows, n);
    let c = front(cols, n);
    let o = front(orientations, n);
    let b = front(bits, n);
    let f = front(&confidences, n);
    let list = List {
        edges: Edges {
            rows: r,
            cols: c,
            orientations: o,
            bits: b,
        },
        confidences: f,
    };
    let hard = HardCall {
        logical: list,
        physical: list,
        transforms: &transforms,
        tables: Tables { h, v },
        error_limit: 0.25,
    };
    let likelihoods = Likelihoods {
        matches: front(&matches, n),
        mismatches: front(&mismatches, n),
    };
    let call = SoftCall {
        hard,
        likelihoods,
        soft_margin: 0.0,
    };
    let answer = decode_soft::decode_soft(
        call,
        front_mut(&mut counts, room),
        front_mut(&mut weights, room),
        front_mut(&mut sums, sums_room),
    );
    print!(rt; "  soft: ")?;
    print_soft_answer(rt, answer)?;
    print_room(rt, &counts, &weights)?;
    print_sums(rt, &sums)?;
    println!(rt; "")
}

// A window of so many squares cut at a placing of a pole of `cut` patterns, decoded as one of a pole of `length`: the front of the same table.
fn show(
    rt: &impl Print,
    squares: u8,
    cut: u16,
    length: u16,
    transform: u8,
    row: u32,
    col: u32,
) -> io::Result<()> {
    println!(rt;
        "cut from a pole of {cut} under {transform} at {row}, {col}, read as one of {length}"
    )?;
    let mut h = [0u8; 500];
    let mut v = [0u8; 167];
    fill_patterns(&mut h, 1);
    fill_patterns(&mut v, 2);
    let mut rows = [0i32; 8193];
    let mut cols = [0i32; 8193];
    let mut orientations = [0u8; 8193];
    let mut bits = [0u8; 8193];
    let n = put_window(
        &mut rows,
        &mut cols,
        &mut orientations,
        &mut bits,
        squares,
        front(&h, cut as usize),
        &v,
        transform,
        row,
        col,
    );
    let board = front(&h, length as usize);
    show_hard(
        rt,
        &rows,
        &cols,
        &orientations,
        &bits,
        n,
        board,
        &v,
        tables_room(length),
    )?;
    show_soft(
        rt,
        &rows,
        &cols,
        &orientations,
        &bits,
        n,
        board,
        &v,
        tables_room(length),
        sums_room(length),
    )
}

// The smallest poles, the largest, and those beside the flat board; then windows of one length read as another.
pub(crate) fn show_all(rt: &impl Print) -> io::Result<()> {
    show(rt, 10, 4, 4, 0, 11, 500)?;
    show(rt, 10, 5, 5, 1, 0, 0)?;
    show(rt, 10, 7, 7, 2, 20, 17)?;
    show(rt, 10, 166, 166, 3, 497, 400)?;
    show(rt, 10, 167, 167, 0, 500, 400)?;
    show(rt, 10, 169, 169, 1, 506, 1)?;
    show(rt, 10, 499, 499, 2, 0, 250)?;
    show(rt, 10, 500, 500, 0, 1499, 500)?;
    show(rt, 10, 500, 500, 0, 499, 500)?;
    show(rt, 10, 166, 167, 0, 497, 400)?;
    show(rt, 10, 167, 166, 0, 500, 400)?;
    show(rt, 10, 4, 6, 0, 11, 500)
}
