// Views around 1,024 class pairs. The board has one bit set in 32 neighbouring horizontal patterns and in 41 neighbouring vertical ones. In both physical lists the first horizontal
// edge is seen twice: with bit 1, and with bit 0 and one unit less. The first list has one horizontal edge and ten vertical ones side by side, which 32 and 32 classes fit best: 1,024
// class pairs. The second has eight horizontal edges, one below the other, and one vertical edge, which 25 and 41 classes fit best: 1,025 pairs. The winner of both is row 12, column 21.
// Document 01's mode tries all origins from 1,025 pairs on, where the unit is lost beside the vertical weights, and takes row 9 of the second list. Each list is decoded with a logical
// window cut at row 12 and with one cut at row 9: what is found shows the physical winner.
use admission::call::HardCall;
use board::list::{Edges, List};
use board::pattern::Tables;
use runs::cut::put_window;
use runs::print::{print_answer, print_exact_answer};
use slices::part::front;
use std::io;

// 2^-10, and one unit less.
const LIGHT: f32 = 1.0 / 1024.0;

const LIGHTER: f32 = 16383.0 / 16777216.0;

// A table with one bit set in each of n patterns, from a place on.
fn fill_ones(table: &mut [u8; 167], from: usize, n: usize) {
    for (i, pattern) in table.iter_mut().enumerate() {
        *pattern = one_within(i, from, n);
    }
}

// 1 for the n places from one on, else 0.
fn one_within(i: usize, from: usize, n: usize) -> u8 {
    if i < from {
        return 0;
    }
    (i - from < n) as u8
}

// Hard decode of a window with a physical list of its own.
fn show_hard<'a>(
    rt: &impl Print,
    rows: &'a [i32],
    cols: &'a [i32],
    orientations: &'a [u8],
    bits: &'a [u8],
    confidences: &'a [f32],
    prows: &'a [i32],
    pcols: &'a [i32],
    porientations: &'a [u8],
    pbits: &'a [u8],
    pconfidences: &'a [f32],
    h: &'a [u8],
    v: &'a [u8],
) -> io::Result<()> {
    let transforms = [0u8; 1];
    let mut counts = [7u32; 3006];
    let mut weights = [7.0f32; 3006];
    print!(rt; "  hard: ")?;
    let logical = List {
        edges: Edges {
            rows,
            cols,
            orientations,
            bits,
        },
        confidences,
    };
    let physical = List {
        edges: Edges {
            rows: prows,
            cols: pcols,
            orientations: porientations,
            bits: pbits,
        },
        confidences: pconfidences,
    };
    let call = HardCall {
        logical,
        physical,
        transforms: &transforms,
        tables: Tables { h, v },
        error_limit: 0.25,
    };
    print_answer(
        rt,
        decode_hard::decode_hard(call, &mut counts, &mut weights),
    )
}

// Exact decode of the same.
fn show_exact<'a>(
    rt: &impl Print,
    rows: &'a [i32],
    cols: &'a [i32],
    orientations: &'a [u8],
    bits: &'a [u8],
    confidences: &'a [f32],
    prows: &'a [i32],
    pcols: &'a [i32],
    porientations: &'a [u8],
    pbits: &'a [u8],
    pconfidences: &'a [f32],
    h: &'a [u8],
    v: &'a [u8],
) -> io::Result<()> {
    let transforms = [0u8; 1];
    let mut counts = [7u32; 3006];
    let mut units = [7u64; 3006];
    print!(rt; "\n  exact: ")?;
    let logical = List {
        edges: Edges {
            rows,
            cols,
            orientations,
            bits,
        },
        confidences,
    };
    let physical = List {
        edges: Edges {
            rows: prows,
            cols: pcols,
            orientations: porientations,
            bits: pbits,
        },
        confidences: pconfidences,
    };
    let call = HardCall {
        logical,
        physical,
        transforms: &transforms,
        tables: Tables { h, v },
        error_limit: 0.25,
    };
    print_exact_answer(
        rt,
        decode_exact::decode_exact(call, &mut counts, &mut units),
    )?;
    println!(rt; "")
}

// A logical window of 45 by 45 squares cut at a row and column 21 of a board, with this physical list, in both modes.
fn show_on<'a>(
    rt: &impl Print,
    h: &'a [u8; 167],
    v: &'a [u8; 167],
    row: u32,
    prows: &[i32],
    pcols: &[i32],
    porientations: &[u8],
    pbits: &[u8],
    pconfidences: &[f32],
) -> io::Result<()> {
    let mut rows = [0i32; 8193];
    let mut cols = [0i32; 8193];
    let mut orientations = [0u8; 8193];
    let mut bits = [0u8; 8193];
    let ones = [1.0f32; 8193];
    let n = put_window(
        &mut rows,
        &mut cols,
        &mut orientations,
        &mut bits,
        45,
        h,
        v,
        0,
        row,
        21,
    );
    let r = front(&rows, n);
    let c = front(&cols, n);
    let o = front(&orientations, n);
    let b = front(&bits, n);
    let f = front(&ones, n);
    show_hard(
        rt,
        r,
        c,
        o,
        b,
        f,
        prows,
        pcols,
        porientations,
        pbits,
        pconfidences,
        h,
        v,
    )?;
    show_exact(
        rt,
        r,
        c,
        o,
        b,
        f,
        prows,
        pcols,
        porientations,
        pbits,
        pconfidences,
        h,
        v,
    )
}

// The same under its name, on the board of these views.
fn show(
    rt: &impl Print,
    name: &str,
    row: u32,
    prows: &[i32],
    pcols: &[i32],
    porientations: &[u8],
    pbits: &[u8],
    pconfidences: &[f32],
) -> io::Result<()> {
    print!(rt; "{name}")?;
    let mut h = [0u8; 167];
    let mut v = [0u8; 167];
    fill_ones(&mut h, 9, 32);
    fill_ones(&mut v, 20, 41);
    show_on(
        rt,
        &h,
        &v,
        row,
        prows,
        pcols,
        porientations,
        pbits,
        pconfidences,
    )
}

// 1,024 class pairs.
fn show_1024(rt: &impl Print, name: &str, row: u32) -> io::Result<()> {
    let rows = [0i32; 12];
    let cols = [0i32, 0, 0, 1, 2, 3, 4, 5, 6, 7, 8, 9];
    let orientations = [0u8, 0, 1, 1, 1, 1, 1, 1, 1, 1, 1, 1];
    let bits = [0u8, 1, 1, 1, 1, 1, 1, 1, 1, 1, 1, 1];
    let mut confidences = [1.0f32; 12];
    confidences[0] = LIGHTER;
    confidences[1] = LIGHT;
    show(
        rt,
        name,
        row,
        &rows,
        &cols,
        &orientations,
        &bits,
        &confidences,
    )
}

// 1,025 class pairs.
fn show_1025(rt: &impl Print, name: &str, row: u32) -> io::Result<()> {
    let rows = [0i32, 0, 1, 2, 3, 4, 5, 6, 7, 0];
    let cols = [0i32; 10];
    let orientations = [0u8, 0, 0, 0, 0, 0, 0, 0, 0, 1];
    let bits = [0u8, 1, 1, 1, 1, 1, 1, 1, 1, 1];
    let mut confidences = [LIGHT; 10];
    confidences[0] = LIGHTER;
    confidences[9] = 1.0;
    show(
        rt,
        name,
        row,
        &rows,
        &cols,
        &orientations,
        &bits,
        &confidences,
    )
}

// Both lists with both windows.
pub(crate) fn show_all(rt: &impl Print) -> io::Result<()> {
    show_1024(rt, "1024 pairs, logical window at row 12\n", 12)?;
    show_1025(rt, "1025 pairs, logical window at row 12\n", 12)?;
    show_1024(rt, "1024 pairs, logical window at row 9\n", 9)?;
    show_1025(rt, "1025 pairs, logical window at row 9\n", 9)
}
