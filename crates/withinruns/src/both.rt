// One list, cut from a board, through the test of its placing and through match statistics.
use answer::Square;
use board::list::{Edges, List};
use board::pattern::Tables;
use runs::cut::{fill_patterns, put_window};
use runs::print::{print_refused, print_stats};
use slices::part::front;
use std::io;
use within_answer::WithinAnswer;

// A bit that is turned where it is missed.
fn turned(bit: u8, missed: bool) -> u8 {
    let b = bit % 2;
    if missed { 1 - b } else { b }
}

// Turns so many bits from a position on: these edges are missed.
fn turn(bits: &mut [u8; 8193], from: usize, missed: usize) {
    for (i, bit) in bits.iter_mut().enumerate() {
        *bit = turned(*bit, from <= i && i < from.wrapping_add(missed));
    }
}

// Which fields of an edge are bad: each of them, each but the row, the bit and the confidence, or the confidence alone.
#[derive(Clone, Copy)]
pub(crate) enum Fields {
    All,
    AllButRow,
    BitAndConfidence,
    Confidence,
}

// A bad edge: its position, and which of its fields are bad.
#[derive(Clone, Copy)]
pub(crate) struct Bad {
    pub at: usize,
    pub fields: Fields,
}

// Spoils an edge, where there is one at the position.
fn spoil(
    rows: &mut [i32; 8193],
    orientations: &mut [u8; 8193],
    bits: &mut [u8; 8193],
    confidences: &mut [f32; 8193],
    bad: Bad,
) {
    let Bad { at, fields } = bad;
    if at >= 8193 {
        return;
    }
    confidences[at] = 1.5;
    match fields {
        Fields::Confidence => {}
        Fields::BitAndConfidence => bits[at] = 2,
        Fields::AllButRow => {
            bits[at] = 2;
            orientations[at] = 2;
        }
        Fields::All => {
            bits[at] = 2;
            orientations[at] = 2;
            rows[at] = 1000001;
        }
    }
}

// All that `within_limit` answers.
fn print_within(rt: &impl Print, a: WithinAnswer) -> io::Result<()> {
    match a {
        Ok(t) => {
            let said = if t.within { "yes" } else { "no" };
            print!(rt; "{said} after {} edges", t.read)
        }
        Err(r) => print_refused(rt, r),
    }
}

// Both answers, under the list's name.
fn show_both<'a>(
    rt: &impl Print,
    rows: &'a [i32],
    cols: &'a [i32],
    orientations: &'a [u8],
    bits: &'a [u8],
    confidences: &'a [f32],
    transform: u8,
    row: u32,
    col: u32,
    h: &'a [u8],
    v: &'a [u8],
    limit: f32,
) -> io::Result<()> {
    print!(rt; "\n  ")?;
    let list = List {
        edges: Edges {
            rows,
            cols,
            orientations,
            bits,
        },
        confidences,
    };
    let tables = Tables { h, v };
    let square = Square {
        transform,
        row,
        col,
    };
    print_within(rt, within::within_limit(list, square, tables, limit))?;
    print!(rt; "\n  match statistics: ")?;
    let list = List {
        edges: Edges {
            rows,
            cols,
            orientations,
            bits,
        },
        confidences,
    };
    let tables = Tables { h, v };
    let square = Square {
        transform,
        row,
        col,
    };
    print_stats(rt, stats::stats::match_stats(list, square, tables))?;
    println!(rt; "")
}

// The first n edges of a window of some squares, cut under transform 0 at row 2, column 400 of a board, with so many edges missed from a position on and one spoiled. They are tested at the placing
// that is given.
fn show_seen<'a>(
    rt: &impl Print,
    h: &'a [u8],
    v: &'a [u8],
    squares: u8,
    n: usize,
    from: usize,
    missed: usize,
    bad: Option<Bad>,
    transform: u8,
    row: u32,
    col: u32,
    limit: f32,
) -> io::Result<()> {
    let mut rows = [0i32; 8193];
    let mut cols = [0i32; 8193];
    let mut orientations = [0u8; 8193];
    let mut bits = [0u8; 8193];
    let mut confidences = [1.0f32; 8193];
    let count = put_window(
        &mut rows,
        &mut cols,
        &mut orientations,
        &mut bits,
        squares,
        h,
        v,
        0,
        2,
        400,
    );
    let some = n.min(count);
    turn(&mut bits, from, missed);
    if let Some(bad) = bad {
        spoil(
            &mut rows,
            &mut orientations,
            &mut bits,
            &mut confidences,
            bad,
        );
    }
    show_both(
        rt,
        front(&rows, some),
        front(&cols, some),
        front(&orientations, some),
        front(&bits, some),
        front(&confidences, some),
        transform,
        row,
        col,
        h,
        v,
        limit,
    )
}

// The same of a board whose horizontal table has `length` patterns, under a name.
pub(crate) fn show_cut(
    rt: &impl Print,
    name: &str,
    length: usize,
    squares: u8,
    n: usize,
    from: usize,
    missed: usize,
    bad: Option<Bad>,
    transform: u8,
    row: u32,
    col: u32,
    limit: f32,
) -> io::Result<()> {
    print!(rt; "{name}")?;
    let mut h = [0u8; 500];
    let mut v = [0u8; 167];
    fill_patterns(&mut h, 1);
    fill_patterns(&mut v, 2);
    show_seen(
        rt,
        front(&h, length),
        &v,
        squares,
        n,
        from,
        missed,
        bad,
        transform,
        row,
        col,
        limit,
    )
}
