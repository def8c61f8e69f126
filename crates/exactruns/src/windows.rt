// Exact decode of lists of our own. Both lists are the same one, each confidence is 1 and the limit is 1, where a line does not say otherwise. The lent room holds 7 before each
// call and is longer than it need be.
use admission::call::HardCall;
use board::list::{Edges, List};
use board::pattern::Tables;
use runs::cut::{fill_patterns, put_window};
use runs::lent::print_unit_room;
use runs::print::print_exact_answer;
use slices::part::front;
use std::io;

// Exact decode of the first n edges as both lists, on a board.
fn show<'a>(
    rt: &impl Print,
    rows: &'a [i32; 8193],
    cols: &'a [i32; 8193],
    orientations: &'a [u8; 8193],
    bits: &'a [u8; 8193],
    confidences: &'a [f32; 8193],
    n: usize,
    transforms: &'a [u8],
    h: &'a [u8],
    v: &'a [u8],
) -> io::Result<()> {
    let mut counts = [7u32; 6007];
    let mut units = [7u64; 6007];
    let r = front(rows, n);
    let c = front(cols, n);
    let o = front(orientations, n);
    let b = front(bits, n);
    let f = front(confidences, n);
    let list = List {
        edges: Edges {
            rows: r,
            cols: c,
            orientations: o,
            bits: b,
        },
        confidences: f,
    };
    let call = HardCall {
        logical: list,
        physical: list,
        transforms,
        tables: Tables { h, v },
        error_limit: 1.0,
    };
    let answer = decode_exact::decode_exact(call, &mut counts, &mut units);
    print!(rt; ": ")?;
    print_exact_answer(rt, answer)?;
    print_unit_room(rt, &counts, &units)?;
    println!(rt; "")
}

// A clean window of some squares, cut at a placing of a board whose horizontal table has `length` patterns: its first n edges decoded, with these confidences.
fn show_cut(
    rt: &impl Print,
    name: &str,
    length: usize,
    squares: u8,
    n: usize,
    transform: u8,
    row: u32,
    col: u32,
    transforms: &[u8],
    confidences: &[f32; 8193],
) -> io::Result<()> {
    print!(rt; "{name}")?;
    let mut h = [0u8; 500];
    let mut v = [0u8; 167];
    fill_patterns(&mut h, 1);
    fill_patterns(&mut v, 2);
    let board = front(&h, length);
    let mut rows = [0i32; 8193];
    let mut cols = [0i32; 8193];
    let mut orientations = [0u8; 8193];
    let mut bits = [0u8; 8193];
    let count = put_window(
        &mut rows,
        &mut cols,
        &mut orientations,
        &mut bits,
        squares,
        board,
        &v,
        transform,
        row,
        col,
    );
    let some = n.min(count);
    show(
        rt,
        &rows,
        &cols,
        &orientations,
        &bits,
        confidences,
        some,
        transforms,
        board,
        &v,
    )
}

// The same of a whole window of 12 by 12 squares, with one confidence for all edges.
fn show_window(
    rt: &impl Print,
    name: &str,
    length: usize,
    transform: u8,
    row: u32,
    col: u32,
    transforms: &[u8],
    confidence: f32,
) -> io::Result<()> {
    let confidences = [confidence; 8193];
    show_cut(
        rt,
        name,
        length,
        12,
        8193,
        transform,
        row,
        col,
        transforms,
        &confidences,
    )
}

// Windows of the flat board, of the smallest pole and of the largest, the poles' across the seam; a transform that is listed twice, which wins or does not.
fn boards(rt: &impl Print) -> io::Result<()> {
    let rotations = [0u8, 1, 2, 3];
    let all = [0u8, 1, 2, 3, 4, 5, 6, 7];
    let twice = [0u8, 1, 1, 3];
    show_window(
        rt,
        "12 by 12 under 0 at 17, 400",
        167,
        0,
        17,
        400,
        &all,
        1.0,
    )?;
    show_window(rt, "12 by 12 under 7 at 1, 2", 167, 7, 1, 2, &all, 1.0)?;
    show_window(
        rt,
        "a pole of 4, under 0 at 11, 500",
        4,
        0,
        11,
        500,
        &rotations,
        1.0,
    )?;
    show_window(
        rt,
        "a pole of 500, under 0 at 1499, 500",
        500,
        0,
        1499,
        500,
        &rotations,
        1.0,
    )?;
    show_window(
        rt,
        "under 1 at 500, 0, listed twice",
        167,
        1,
        500,
        0,
        &twice,
        1.0,
    )?;
    show_window(
        rt,
        "under 3 at 166, 167, another listed twice",
        167,
        3,
        166,
        167,
        &twice,
        1.0,
    )
}

// The limits of a list's length, and one edge alone.
fn lengths(rt: &impl Print) -> io::Result<()> {
    let ones = [1.0f32; 8193];
    let rotations = [0u8, 1, 2, 3];
    show_cut(
        rt,
        "8192 edges under 0 at 17, 400",
        167,
        65,
        8192,
        0,
        17,
        400,
        &rotations,
        &ones,
    )?;
    show_cut(
        rt,
        "8193 edges under 0 at 17, 400",
        167,
        65,
        8193,
        0,
        17,
        400,
        &rotations,
        &ones,
    )?;
    show_cut(
        rt,
        "one edge alone",
        167,
        1,
        1,
        0,
        17,
        400,
        &rotations,
        &ones,
    )
}

// 1,000 edges at row 0 and column 0, all of them horizontal but the second, on a board whose patterns and in a list whose bits are all 0.
fn all_zero(rt: &impl Print) -> io::Result<()> {
    print!(rt; "all patterns and bits 0")?;
    let table = [0u8; 167];
    let zeros = [0i32; 8193];
    let mut orientations = [0u8; 8193];
    orientations[1] = 1;
    let bits = [0u8; 8193];
    let ones = [1.0f32; 8193];
    let first = [0u8; 1];
    show(
        rt,
        &zeros,
        &zeros,
        &orientations,
        &bits,
        &ones,
        1000,
        &first,
        &table,
        &table,
    )
}

// 2^-25, which is half a unit and becomes one; the next smaller float, which becomes none; and 2^-26.
const HALF_UNIT: f32 = 1.0 / 33554432.0;

const BELOW_HALF: f32 = 16777215.0 / 562949953421312.0;

const QUARTER: f32 = 1.0 / 67108864.0;

// Windows of which every edge has such a confidence: where all units are 0 the list is refused with 10, although its confidences are not 0.
fn around_half_a_unit(rt: &impl Print) -> io::Result<()> {
    let first = [0u8; 1];
    show_window(
        rt,
        "every confidence 2^-25",
        167,
        0,
        17,
        400,
        &first,
        HALF_UNIT,
    )?;
    show_window(
        rt,
        "every confidence just below 2^-25",
        167,
        0,
        17,
        400,
        &first,
        BELOW_HALF,
    )?;
    show_window(
        rt,
        "every confidence 2^-26",
        167,
        0,
        17,
        400,
        &first,
        QUARTER,
    )?;
    show_window(rt, "every confidence -0", 167, 0, 17, 400, &first, -0.0)
}

// A window of which single edges have other confidences: those that become no unit, and those that become 1, 2, 8,388,608 (from half a unit below 1/2) and 2^24.
fn mixed(rt: &impl Print) -> io::Result<()> {
    let mut confidences = [-0.0f32; 8193];
    confidences[0] = HALF_UNIT;
    confidences[1] = BELOW_HALF;
    confidences[2] = QUARTER;
    confidences[3] = 3.0 * HALF_UNIT;
    confidences[4] = 0.5 - HALF_UNIT;
    confidences[5] = 1.0;
    let first = [0u8; 1];
    show_cut(
        rt,
        "confidences 2^-25, below it, 2^-26, 3 * 2^-25, 1/2 - 2^-25, 1, and -0 for all others",
        167,
        12,
        8193,
        0,
        17,
        400,
        &first,
        &confidences,
    )
}

// All runs.
pub(crate) fn show_all(rt: &impl Print) -> io::Result<()> {
    boards(rt)?;
    lengths(rt)?;
    all_zero(rt)?;
    around_half_a_unit(rt)?;
    mixed(rt)
}
