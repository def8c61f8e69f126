// Soft decode run on noisy windows: 12 by 12 squares of which the first edges are missed. Confidences go round by eighths, and an edge's likelihoods are those of a
// sigmoid of slope 6, not below -6. Both lists have the same edges and the error limit is 1.
use crate::bent::{repeat, turn_bits};
use admission::call::{HardCall, SoftCall};
use board::list::{Edges, List};
use board::pattern::Tables;
use likelihood::Likelihoods;
use runs::cut::{fill_patterns, put_window};
use runs::lent::{print_room, print_sums};
use runs::print::print_soft_answer;
use slices::part::front;
use std::io;

// Soft decode of the first n edges, with bits of their own for each list, over all transforms.
fn show<'a>(
    rt: &impl Print,
    rows: &'a [i32; 8193],
    cols: &'a [i32; 8193],
    orientations: &'a [u8; 8193],
    pbits: &'a [u8; 8193],
    lbits: &'a [u8; 8193],
    confidences: &'a [f32; 8193],
    matches: &'a [f32; 8193],
    mismatches: &'a [f32; 8193],
    n: usize,
    h: &'a [u8; 167],
    v: &'a [u8; 167],
    margin: f32,
) -> io::Result<()> {
    let transforms = [0u8, 1, 2, 3, 4, 5, 6, 7];
    let mut counts = [7u32; 3010];
    let mut weights = [7.0f32; 3010];
    let mut sums = [7i64; 5014];
    let r = front(rows, n);
    let c = front(cols, n);
    let o = front(orientations, n);
    let k = front(confidences, n);
    let logical = List {
        edges: Edges {
            rows: r,
            cols: c,
            orientations: o,
            bits: front(lbits, n),
        },
        confidences: k,
    };
    let physical = List {
        edges: Edges {
            rows: r,
            cols: c,
            orientations: o,
            bits: front(pbits, n),
        },
        confidences: k,
    };
    let hard = HardCall {
        logical,
        physical,
        transforms: &transforms,
        tables: Tables { h, v },
        error_limit: 1.0,
    };
    let likelihoods = Likelihoods {
        matches: front(matches, n),
        mismatches: front(mismatches, n),
    };
    let call = SoftCall {
        hard,
        likelihoods,
        soft_margin: margin,
    };
    let answer = decode_soft::decode_soft(call, &mut counts, &mut weights, &mut sums);
    print!(rt; ": ")?;
    print_soft_answer(rt, answer)?;
    print_room(rt, &counts, &weights)?;
    print_sums(rt, &sums)?;
    println!(rt; "")
}

// The window's lists: the logical one is cut at (row, col), the physical one at (prow, col); of each the first bits are turned.
fn show_noisy(
    rt: &impl Print,
    name: &str,
    transform: u8,
    row: u32,
    col: u32,
    prow: u32,
    missed: usize,
    confidences: &[f32; 8193],
    margin: f32,
) -> io::Result<()> {
    print!(rt; "{name}")?;
    let mut h = [0u8; 167];
    let mut v = [0u8; 167];
    fill_patterns(&mut h, 1);
    fill_patterns(&mut v, 2);
    let mut rows = [0i32; 8193];
    let mut cols = [0i32; 8193];
    let mut orientations = [0u8; 8193];
    let mut pbits = [0u8; 8193];
    let mut lbits = [0u8; 8193];
    let n = put_window(
        &mut rows,
        &mut cols,
        &mut orientations,
        &mut pbits,
        12,
        &h,
        &v,
        transform,
        prow,
        col,
    );
    put_window(
        &mut rows,
        &mut cols,
        &mut orientations,
        &mut lbits,
        12,
        &h,
        &v,
        transform,
        row,
        col,
    );
    turn_bits(&mut pbits, missed);
    turn_bits(&mut lbits, missed);
    let mut matches = [0.0f32; 8193];
    let mut mismatches = [0.0f32; 8193];
    let match_of = [
        -0.38687101f32,
        -0.201413274,
        -0.100206561,
        -0.048587352,
        -0.023245465,
        -0.0110477451,
        -0.00523379818,
        -0.00247568521,
    ];
    let mismatch_of = [
        -1.13687098f32,
        -1.70141327,
        -2.35020661,
        -3.04858732,
        -3.77324557,
        -4.51104784,
        -5.25523376,
        -6.0,
    ];
    repeat(&mut matches, &match_of);
    repeat(&mut mismatches, &mismatch_of);
    show(
        rt,
        &rows,
        &cols,
        &orientations,
        &pbits,
        &lbits,
        confidences,
        &matches,
        &mismatches,
        n,
        &h,
        &v,
        margin,
    )
}

// A noisy window is found at its own square. The margin of the first is 3e5aa3e8: as soft margin it is met, and the next float above it is not.
fn noisy(rt: &impl Print, c: &[f32; 8193]) -> io::Result<()> {
    show_noisy(rt, "noisy under 0 at 17, 400", 0, 17, 400, 17, 12, c, 0.0)?;
    show_noisy(rt, "noisy under 1 at 500, 0", 1, 500, 0, 500, 12, c, 0.0)?;
    show_noisy(
        rt,
        "noisy under 4 at 333, 334",
        4,
        333,
        334,
        333,
        12,
        c,
        0.0,
    )?;
    show_noisy(rt, "noisy under 7 at 1, 2", 7, 1, 2, 1, 12, c, 0.0)?;
    show_noisy(
        rt,
        "soft margin 3e5aa3e7",
        0,
        17,
        400,
        17,
        12,
        c,
        0.213515863,
    )?;
    show_noisy(
        rt,
        "soft margin 3e5aa3e8",
        0,
        17,
        400,
        17,
        12,
        c,
        0.213515878,
    )?;
    show_noisy(
        rt,
        "soft margin 3e5aa3e9",
        0,
        17,
        400,
        17,
        12,
        c,
        0.213515893,
    )
}

// Lists that must be refused.
fn refused(rt: &impl Print, c: &[f32; 8193]) -> io::Result<()> {
    show_noisy(rt, "physical list from row 18", 0, 17, 400, 18, 12, c, 0.0)?;
    show_noisy(
        rt,
        "physical list from row 18, soft margin 1",
        0,
        17,
        400,
        18,
        12,
        c,
        1.0,
    )?;
    show_noisy(rt, "20 edges missed", 0, 17, 400, 17, 20, c, 0.0)?;
    show_noisy(rt, "soft margin NaN", 0, 17, 400, 17, 12, c, 0.0 / 0.0)?;
    let none = [0.0f32; 8193];
    show_noisy(
        rt,
        "confidence 0, soft margin 1",
        0,
        17,
        400,
        17,
        12,
        &none,
        1.0,
    )
}

// Confidences of 0 and of -0 among others: the likelihoods decide, and a weight is the same as without these edges.
fn zeros(rt: &impl Print) -> io::Result<()> {
    let mixed = [0.0f32, -0.0, 0.375, -0.0, 0.0, 0.75, -0.0, 1.0];
    let mut confidences = [0.0f32; 8193];
    repeat(&mut confidences, &mixed);
    show_noisy(
        rt,
        "confidences of 0 and -0 among others",
        0,
        17,
        400,
        17,
        12,
        &confidences,
        0.0,
    )
}

// All runs.
pub(crate) fn show_all(rt: &impl Print) -> io::Result<()> {
    let eighths = [0.125f32, 0.25, 0.375, 0.5, 0.625, 0.75, 0.875, 1.0];
    let mut confidences = [0.0f32; 8193];
    repeat(&mut confidences, &eighths);
    noisy(rt, &confidences)?;
    refused(rt, &confidences)?;
    zeros(rt)
}
