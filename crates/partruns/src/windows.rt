// Windows of the flat board over parts of it, each beside exact decode of the whole board. Both lists are the same one, each confidence is 1 and the limit is 1. The lent room holds 7 before each
// call and is longer than it need be.
use crate::shown::print_part_answer;
use admission::call::HardCall;
use board::list::{Edges, List};
use board::pattern::Tables;
use part::Part;
use runs::cut::{fill_patterns, put_window};
use runs::lent::print_unit_room;
use runs::print::print_exact_answer;
use slices::part::{front, front_mut};
use std::io;

// The call with a list as both lists.
fn call_of<'a>(list: List<'a>, transforms: &'a [u8], h: &'a [u8], v: &'a [u8]) -> HardCall<'a> {
    HardCall {
        logical: list,
        physical: list,
        transforms,
        tables: Tables { h, v },
        error_limit: 1.0,
    }
}

// Exact decode of a call, over the whole board.
fn show_whole(rt: &impl Print, call: HardCall<'_>) -> io::Result<()> {
    let mut counts = [7u32; 3010];
    let mut units = [7u64; 3010];
    print!(rt; "\n  whole board: ")?;
    print_exact_answer(
        rt,
        decode_exact::decode_exact(call, &mut counts, &mut units),
    )
}

// Decode of the same over a part, and what it left in the room.
fn show_part(rt: &impl Print, call: HardCall<'_>, part: Part) -> io::Result<()> {
    let mut counts = [7u32; 3010];
    let mut units = [7u64; 3010];
    let answer = decode_part::decode_part(call, part, &mut counts, &mut units);
    print!(rt; "\n  part: ")?;
    print_part_answer(rt, answer)?;
    print_unit_room(rt, &counts, &units)?;
    println!(rt; "")
}

// The first bits turned, so many of them.
fn turn(bits: &mut [u8; 8193], wrong: usize) {
    for bit in front_mut(bits, wrong) {
        *bit = 1 - *bit % 2;
    }
}

// A window of some squares cut at a placing, of which the first bits are turned: over the whole board and over a part.
fn show(
    rt: &impl Print,
    name: &str,
    squares: u8,
    wrong: usize,
    transform: u8,
    row: u32,
    col: u32,
    transforms: &[u8],
    part: Part,
) -> io::Result<()> {
    print!(rt; "{name}")?;
    let mut h = [0u8; 167];
    let mut v = [0u8; 167];
    fill_patterns(&mut h, 1);
    fill_patterns(&mut v, 2);
    let mut rows = [0i32; 8193];
    let mut cols = [0i32; 8193];
    let mut orientations = [0u8; 8193];
    let mut bits = [0u8; 8193];
    let n = put_window(
        &mut rows,
        &mut cols,
        &mut orientations,
        &mut bits,
        squares,
        &h,
        &v,
        transform,
        row,
        col,
    );
    turn(&mut bits, wrong);
    let ones = [1.0f32; 8193];
    let list = List {
        edges: Edges {
            rows: front(&rows, n),
            cols: front(&cols, n),
            orientations: front(&orientations, n),
            bits: front(&bits, n),
        },
        confidences: front(&ones, n),
    };
    let call = call_of(list, transforms, &h, &v);
    show_whole(rt, call)?;
    show_part(rt, call, part)
}

// A part that starts at a row and a column and has so many rows and columns.
fn part_at(row: u32, col: u32, rows: u32, cols: u32) -> Part {
    Part {
        row,
        col,
        rows,
        cols,
    }
}

// Parts across both seams, and windows that have too few edges for the whole board.
fn parts(rt: &impl Print) -> io::Result<()> {
    let rotations = [0u8, 1, 2, 3];
    let all = [0u8, 1, 2, 3, 4, 5, 6, 7];
    show(
        rt,
        "12 by 12 squares under 0 at 500, 0; 20 by 20 origins from 491, 491",
        12,
        0,
        0,
        500,
        0,
        &rotations,
        part_at(491, 491, 20, 20),
    )?;
    show(
        rt,
        "12 by 12 squares under 7 at 0, 500; 10 by 10 origins from 495, 495",
        12,
        3,
        7,
        0,
        500,
        &all,
        part_at(495, 495, 10, 10),
    )?;
    show(
        rt,
        "3 by 3 squares under 1 at 2, 499; 6 by 6 origins from 499, 497",
        3,
        0,
        1,
        2,
        499,
        &rotations,
        part_at(499, 497, 6, 6),
    )?;
    show(
        rt,
        "12 by 12 squares under 0 at 17, 400; 100 by 100 origins from 18, 350, which do not hold it",
        12,
        0,
        0,
        17,
        400,
        &rotations,
        part_at(18, 350, 100, 100),
    )
}

// One origin, with one list position and with two. Of 8 edges 5 hits are found and 4 refused.
fn one_origin(rt: &impl Print) -> io::Result<()> {
    let first = [0u8; 1];
    let two = [0u8, 3];
    let twice = [0u8; 2];
    let alone = part_at(17, 400, 1, 1);
    show(
        rt,
        "2 by 2 squares under 0 at 17, 400; one origin, one transform",
        2,
        0,
        0,
        17,
        400,
        &first,
        alone,
    )?;
    show(
        rt,
        "the same with 3 of its 8 bits turned",
        2,
        3,
        0,
        17,
        400,
        &first,
        alone,
    )?;
    show(
        rt,
        "the same with 4 of its 8 bits turned",
        2,
        4,
        0,
        17,
        400,
        &first,
        alone,
    )?;
    show(
        rt,
        "4 by 4 squares; one origin, transforms 0 and 3",
        4,
        0,
        0,
        17,
        400,
        &two,
        alone,
    )?;
    show(
        rt,
        "4 by 4 squares; one origin, transform 0 listed twice",
        4,
        0,
        0,
        17,
        400,
        &twice,
        alone,
    )
}

// The full part from three starts: the whole board's answer, but for the runner-up's place.
fn full(rt: &impl Print) -> io::Result<()> {
    let all = [0u8, 1, 2, 3, 4, 5, 6, 7];
    show(
        rt,
        "12 by 12 squares under 5 at 123, 456; all origins from 0, 0",
        12,
        2,
        5,
        123,
        456,
        &all,
        part_at(0, 0, 501, 501),
    )?;
    show(
        rt,
        "the same; all origins from 124, 457",
        12,
        2,
        5,
        123,
        456,
        &all,
        part_at(124, 457, 501, 501),
    )?;
    show(
        rt,
        "the same; all origins from 500, 250",
        12,
        2,
        5,
        123,
        456,
        &all,
        part_at(500, 250, 501, 501),
    )?;
    show(
        rt,
        "one square under 0 at 17, 400; all origins from 500, 500",
        1,
        0,
        0,
        17,
        400,
        &all,
        part_at(500, 500, 501, 501),
    )
}

// All runs.
pub(crate) fn show_all(rt: &impl Print) -> io::Result<()> {
    parts(rt)?;
    one_origin(rt)?;
    full(rt)
}
