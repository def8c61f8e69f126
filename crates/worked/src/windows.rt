// Hard decode run on lists of our own: a clean window under each transform, lists that must be refused, and the limits of a list's length. Both lists are the same
// one, each confidence is 1 and the limit is 1, where a line does not say otherwise. The lent room holds 7 before each call and is four places longer than it need be.
use crate::bent::{fill_ones, repeat, turn_bits};
use admission::call::HardCall;
use board::list::{Edges, List};
use board::pattern::Tables;
use runs::cut::{fill_patterns, put_window};
use runs::lent::print_room;
use runs::print::print_answer;
use slices::part::front;
use std::io;

// Hard decode of the first n edges, with bits and confidences of their own for the physical list, over the listed transforms.
fn show<'a>(
    rt: &impl Print,
    rows: &'a [i32; 8193],
    cols: &'a [i32; 8193],
    orientations: &'a [u8; 8193],
    bits: &'a [u8; 8193],
    confidences: &'a [f32; 8193],
    pbits: &'a [u8; 8193],
    pconfidences: &'a [f32; 8193],
    n: usize,
    transforms: &'a [u8],
    h: &'a [u8; 167],
    v: &'a [u8; 167],
    limit: f32,
) -> io::Result<()> {
    let mut counts = [7u32; 3010];
    let mut weights = [7.0f32; 3010];
    let r = front(rows, n);
    let c = front(cols, n);
    let o = front(orientations, n);
    let logical = List {
        edges: Edges {
            rows: r,
            cols: c,
            orientations: o,
            bits: front(bits, n),
        },
        confidences: front(confidences, n),
    };
    let physical = List {
        edges: Edges {
            rows: r,
            cols: c,
            orientations: o,
            bits: front(pbits, n),
        },
        confidences: front(pconfidences, n),
    };
    let call = HardCall {
        logical,
        physical,
        transforms,
        tables: Tables { h, v },
        error_limit: limit,
    };
    let answer = decode_hard::decode_hard(call, &mut counts, &mut weights);
    print!(rt; ": ")?;
    print_answer(rt, answer)?;
    print_room(rt, &counts, &weights)?;
    println!(rt; "")
}

// A clean window of some squares, cut at a placing of a random board: its first n edges decoded over the listed transforms, with these confidences.
fn show_cut(
    rt: &impl Print,
    squares: u8,
    n: usize,
    transform: u8,
    r: u32,
    c: u32,
    transforms: &[u8],
    confidences: &[f32; 8193],
) -> io::Result<()> {
    let mut h = [0u8; 167];
    let mut v = [0u8; 167];
    fill_patterns(&mut h, 1);
    fill_patterns(&mut v, 2);
    let mut rows = [0i32; 8193];
    let mut cols = [0i32; 8193];
    let mut orientations = [0u8; 8193];
    let mut bits = [0u8; 8193];
    let count = put_window(
        &mut rows,
        &mut cols,
        &mut orientations,
        &mut bits,
        squares,
        &h,
        &v,
        transform,
        r,
        c,
    );
    show(
        rt,
        &rows,
        &cols,
        &orientations,
        &bits,
        confidences,
        &bits,
        confidences,
        n.min(count),
        transforms,
        &h,
        &v,
        1.0,
    )
}

// The same with every confidence 1.
fn show_window(
    rt: &impl Print,
    squares: u8,
    n: usize,
    transform: u8,
    r: u32,
    c: u32,
    transforms: &[u8],
) -> io::Result<()> {
    let ones = [1.0f32; 8193];
    show_cut(rt, squares, n, transform, r, c, transforms, &ones)
}

// A 12 by 12 window with some logical edges missed, whose physical list is cut at a row of its own.
fn show_faulty(
    rt: &impl Print,
    name: &str,
    missed: usize,
    row: u32,
    confidence: f32,
    limit: f32,
) -> io::Result<()> {
    print!(rt; "{name}")?;
    let mut h = [0u8; 167];
    let mut v = [0u8; 167];
    fill_patterns(&mut h, 1);
    fill_patterns(&mut v, 2);
    let mut rows = [0i32; 8193];
    let mut cols = [0i32; 8193];
    let mut orientations = [0u8; 8193];
    let mut bits = [0u8; 8193];
    let mut pbits = [0u8; 8193];
    let n = put_window(
        &mut rows,
        &mut cols,
        &mut orientations,
        &mut pbits,
        12,
        &h,
        &v,
        0,
        row,
        400,
    );
    put_window(
        &mut rows,
        &mut cols,
        &mut orientations,
        &mut bits,
        12,
        &h,
        &v,
        0,
        17,
        400,
    );
    turn_bits(&mut bits, missed);
    let confidences = [confidence; 8193];
    let transforms = [0u8, 1, 2, 3, 4, 5, 6, 7];
    show(
        rt,
        &rows,
        &cols,
        &orientations,
        &bits,
        &confidences,
        &pbits,
        &confidences,
        n,
        &transforms,
        &h,
        &v,
        limit,
    )
}

// n edges at row 0 and column 0, all horizontal but the second, each of the same bit, on a board whose tables have so many patterns with one bit set. For two edges of
// bit 1 the product of both numbers is the number of optimal pairs.
fn show_pair(
    rt: &impl Print,
    name: &str,
    horizontal: usize,
    vertical: usize,
    n: usize,
    bit: u8,
) -> io::Result<()> {
    print!(rt; "{name}")?;
    let mut h = [0u8; 167];
    let mut v = [0u8; 167];
    fill_ones(&mut h, horizontal);
    fill_ones(&mut v, vertical);
    let rows = [0i32; 8193];
    let cols = [0i32; 8193];
    let mut orientations = [0u8; 8193];
    orientations[1] = 1;
    let bits = [bit; 8193];
    let confidences = [1.0f32; 8193];
    let transforms = [0u8; 1];
    show(
        rt,
        &rows,
        &cols,
        &orientations,
        &bits,
        &confidences,
        &bits,
        &confidences,
        n,
        &transforms,
        &h,
        &v,
        1.0,
    )
}

// One horizontal edge seen twice, with bit 1 and with bit 0, and a vertical edge of bit 1, on such a board: each horizontal cell has one hit. Of the logical list the cells of
// bit 0 weigh so little less than those of bit 1 that the rounded sums of all pairs tie; of the physical list they weigh half. Up to 1,024 optimal pairs both lists
// take the first optimal pair. From 1,025 on the logical list takes the first origin of all that tie, which is another.
fn show_near_tie(
    rt: &impl Print,
    name: &str,
    horizontal: usize,
    vertical: usize,
) -> io::Result<()> {
    print!(rt; "{name}")?;
    let mut h = [0u8; 167];
    let mut v = [0u8; 167];
    fill_ones(&mut h, horizontal);
    fill_ones(&mut v, vertical);
    let rows = [0i32; 8193];
    let cols = [0i32; 8193];
    let mut orientations = [0u8; 8193];
    orientations[1] = 1;
    let mut bits = [1u8; 8193];
    bits[2] = 0;
    let mut confidences = [1.0f32; 8193];
    confidences[2] = 16777215.0 / 16777216.0;
    let mut pconfidences = [1.0f32; 8193];
    pconfidences[2] = 0.5;
    let transforms = [0u8; 1];
    show(
        rt,
        &rows,
        &cols,
        &orientations,
        &bits,
        &confidences,
        &bits,
        &pconfidences,
        3,
        &transforms,
        &h,
        &v,
        1.0,
    )
}

// A clean window of 12 by 12 squares over all transforms, under its placing.
fn show_clean(rt: &impl Print, transform: u8, r: u32, c: u32) -> io::Result<()> {
    print!(rt; "12 by 12 under {transform} at {r}, {c}")?;
    let all = [0u8, 1, 2, 3, 4, 5, 6, 7];
    show_window(rt, 12, 8193, transform, r, c, &all)
}

// A clean window is found at its own square under each transform.
fn clean(rt: &impl Print) -> io::Result<()> {
    show_clean(rt, 0, 17, 400)?;
    show_clean(rt, 1, 500, 0)?;
    show_clean(rt, 2, 0, 500)?;
    show_clean(rt, 3, 166, 167)?;
    show_clean(rt, 4, 333, 334)?;
    show_clean(rt, 5, 123, 456)?;
    show_clean(rt, 6, 250, 251)?;
    show_clean(rt, 7, 1, 2)
}

// A transform that is listed twice, and the limits of a list's length.
fn listed_and_long(rt: &impl Print) -> io::Result<()> {
    let twice = [0u8, 1, 1, 3];
    print!(rt; "under 1 at 500, 0, listed twice")?;
    show_window(rt, 12, 8193, 1, 500, 0, &twice)?;
    print!(rt; "under 3 at 166, 167, another listed twice")?;
    show_window(rt, 12, 8193, 3, 166, 167, &twice)?;
    let some = [0u8, 1, 2, 3];
    print!(rt; "8192 edges under 0 at 17, 400")?;
    show_window(rt, 65, 8192, 0, 17, 400, &some)?;
    print!(rt; "8193 edges under 0 at 17, 400")?;
    show_window(rt, 65, 8193, 0, 17, 400, &some)
}

// Many optimal pairs: no square is alone the best.
fn many_pairs(rt: &impl Print) -> io::Result<()> {
    show_pair(rt, "one edge alone", 83, 83, 1, 1)?;
    show_pair(rt, "all patterns and bits 0", 0, 0, 1000, 0)?;
    show_pair(rt, "1024 optimal pairs", 32, 32, 2, 1)?;
    show_pair(rt, "1025 optimal pairs", 25, 41, 2, 1)?;
    show_near_tie(rt, "1024 optimal pairs, near tie", 32, 32)?;
    show_near_tie(rt, "1025 optimal pairs, near tie", 25, 41)
}

// Faults that are judged after the early refusals.
fn faulty(rt: &impl Print) -> io::Result<()> {
    show_faulty(rt, "19 edges missed, margin 20", 19, 17, 1.0, 1.0)?;
    show_faulty(rt, "20 edges missed, margin 20", 20, 17, 1.0, 1.0)?;
    show_faulty(
        rt,
        "20 edges missed, limit 20 / 288",
        20,
        17,
        1.0,
        20.0 / 288.0,
    )?;
    show_faulty(
        rt,
        "21 edges missed, limit 20 / 288",
        21,
        17,
        1.0,
        20.0 / 288.0,
    )?;
    show_faulty(rt, "physical list from row 18", 0, 18, 1.0, 1.0)?;
    show_faulty(rt, "confidence 0", 0, 17, 0.0, 1.0)
}

// A clean 12 by 12 window whose confidences are eight values, one after the other and again.
fn show_weighted(rt: &impl Print, name: &str, eight: &[f32; 8]) -> io::Result<()> {
    print!(rt; "{name}")?;
    let mut confidences = [0.0f32; 8193];
    repeat(&mut confidences, eight);
    let all = [0u8, 1, 2, 3, 4, 5, 6, 7];
    show_cut(rt, 12, 8193, 0, 17, 400, &all, &confidences)
}

// Confidences of 0 and of -0, which count as 0: hits are counted all the same, and a list with no other confidence is refused.
fn zeros(rt: &impl Print) -> io::Result<()> {
    let mixed = [0.0f32, -0.0, 0.375, -0.0, 0.0, 0.75, -0.0, 1.0];
    show_weighted(rt, "confidences of 0 and -0 among others", &mixed)?;
    let last = [-0.0f32, -0.0, -0.0, -0.0, -0.0, -0.0, -0.0, 0.5];
    show_weighted(rt, "confidence -0 but for every eighth edge", &last)?;
    let minus = [-0.0f32, -0.0, -0.0, -0.0, -0.0, -0.0, -0.0, -0.0];
    show_weighted(rt, "confidence -0", &minus)
}

// All runs.
pub(crate) fn show_all(rt: &impl Print) -> io::Result<()> {
    clean(rt)?;
    listed_and_long(rt)?;
    many_pairs(rt)?;
    faulty(rt)?;
    zeros(rt)
}
