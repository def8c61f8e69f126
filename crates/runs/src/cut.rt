// Windows cut from boards of our own: their tables, and lists of edges as a camera at a placing sees them.
ghost use Rattle.std.specs.Prelude.{◌<◌, ◌≤◌, length};
ghost use Rattle.runs.specs.Made.{Made};

use answer::Square;
use board::list::{Edges, List};
use board::pattern::Tables;

// A number that looks random, below 2^31, after x.
fn next_random(x: u64) -> u64 {
    (x % 2147483648 * 1103515245 + 12345) % 2147483648
}

// A pattern, of the higher bits of such a number.
fn pattern_of(x: u64) -> u8
    ensures { result < 8 }
{
    (x / 65536 % 8) as u8
}

// A table of patterns that look random.
pub fn fill_patterns(table: &mut [u8], seed: u64)
    ensures { Made table.new (length table.old) (length table.old) }
{
    let mut x = seed;
    for i in 0..table.len() {
        x = next_random(x);
        table[i] = pattern_of(x);
    }
}

// The bit that makes an edge a hit at a placing, by match statistics of that edge alone.
fn true_bit<'a>(
    h: &'a [u8],
    v: &'a [u8],
    row: i32,
    col: i32,
    orientation: u8,
    transform: u8,
    r: u32,
    c: u32,
) -> u8 {
    let rows = [row; 1];
    let cols = [col; 1];
    let orientations = [orientation; 1];
    let bits = [0u8; 1];
    let confidences = [1.0f32; 1];
    let list = List {
        edges: Edges {
            rows: &rows,
            cols: &cols,
            orientations: &orientations,
            bits: &bits,
        },
        confidences: &confidences,
    };
    let tables = Tables { h, v };
    let square = Square {
        transform,
        row: r,
        col: c,
    };
    match stats::stats::match_stats(list, square, tables) {
        Ok(m) => { if m.hits == 1 { 0 } else { 1 } }
        Err(_) => 2,
    }
}

// One edge more, where there is a place for it.
fn put(
    rows: &mut [i32; 8193],
    cols: &mut [i32; 8193],
    orientations: &mut [u8; 8193],
    bits: &mut [u8; 8193],
    n: usize,
    row: u8,
    col: u8,
    orientation: u8,
    bit: u8,
) -> usize
    requires { n ≤ 8193 }
    ensures { result ≤ 8193 }
{
    if n < 8193 {
        rows[n] = wide(row);
        cols[n] = wide(col);
        orientations[n] = orientation;
        bits[n] = bit;
        return n + 1;
    }
    n
}

// A byte as a coordinate.
fn wide(x: u8) -> i32 {
    x as i32
}

// The edges of one orientation in one row of a window, seen at the placing.
fn put_row<'a>(
    rows: &mut [i32; 8193],
    cols: &mut [i32; 8193],
    orientations: &mut [u8; 8193],
    bits: &mut [u8; 8193],
    n: usize,
    row: u8,
    squares: u8,
    orientation: u8,
    h: &'a [u8],
    v: &'a [u8],
    transform: u8,
    r: u32,
    c: u32,
) -> usize
    requires { n ≤ 8193 }
    ensures { result ≤ 8193 }
{
    let mut count = n;
    for col in 0..squares {
        let bit = true_bit(h, v, wide(row), wide(col), orientation, transform, r, c);
        count = put(
            rows,
            cols,
            orientations,
            bits,
            count,
            row,
            col,
            orientation,
            bit,
        );
    }
    count
}

// The edges of a square window, seen at the placing: how many there are.
pub fn put_window<'a>(
    rows: &mut [i32; 8193],
    cols: &mut [i32; 8193],
    orientations: &mut [u8; 8193],
    bits: &mut [u8; 8193],
    squares: u8,
    h: &'a [u8],
    v: &'a [u8],
    transform: u8,
    r: u32,
    c: u32,
) -> usize
    ensures { result ≤ 8193 }
{
    let mut count = 0;
    for row in 0..squares {
        count = put_row(
            rows,
            cols,
            orientations,
            bits,
            count,
            row,
            squares,
            0,
            h,
            v,
            transform,
            r,
            c,
        );
        count = put_row(
            rows,
            cols,
            orientations,
            bits,
            count,
            row,
            squares,
            1,
            h,
            v,
            transform,
            r,
            c,
        );
    }
    count
}
