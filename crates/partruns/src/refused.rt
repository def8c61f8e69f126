// Each refusal of decode over a part. A good call is a clean 12 by 12 window at 17, 400 as both lists, over the four rotations and the 40 by 40 origins from 490, 390; each line has one fault, by
// its refusal's number.
use crate::shown::print_part_answer;
use admission::call::HardCall;
use board::list::{Edges, List};
use board::pattern::Tables;
use part::Part;
use runs::cut::{fill_patterns, put_window};
use runs::lent::print_unit_room;
use slices::part::{front, front_mut};
use std::io;

// The one fault of a call: none, or that by which it is refused.
#[derive(Clone, Copy, PartialEq, Eq)]
enum Fault {
    None,
    ShortCounts,
    ShortUnits,
    Lengths,
    Empty,
    Column,
    Orientation,
    Bit,
    Confidence,
    Transform,
    Table,
    Limit,
    PartRow,
    PartColumn,
    PartNoRows,
    PartColumns,
    PartLargest,
    NoLogicalUnits,
    Missed,
    PartElsewhere,
    NoPhysicalUnits,
    Elsewhere,
    Twice,
}

// x if yes, else y.
fn pick<T: Copy>(yes: bool, x: T, y: T) -> T {
    if yes { x } else { y }
}

// A window of the board, 12 by 12 squares, cut at a row and column 400 under 0: how many edges it has.
fn cut(
    rows: &mut [i32; 8193],
    cols: &mut [i32; 8193],
    orientations: &mut [u8; 8193],
    bits: &mut [u8; 8193],
    row: u32,
) -> usize {
    let mut h = [0u8; 167];
    let mut v = [0u8; 167];
    fill_patterns(&mut h, 1);
    fill_patterns(&mut v, 2);
    put_window(rows, cols, orientations, bits, 12, &h, &v, 0, row, 400)
}

// The part of a call with a fault.
fn part_of(fault: Fault) -> Part {
    let row = pick(fault == Fault::PartElsewhere, 18, 490);
    let rows = pick(fault == Fault::PartNoRows, 0, 40);
    Part {
        row: pick(fault == Fault::PartRow, 501, row),
        col: pick(fault == Fault::PartColumn, 4294966796, 390),
        rows: pick(fault == Fault::PartLargest, 4294967295, rows),
        cols: pick(fault == Fault::PartColumns, 502, 40),
    }
}

// The good call with a fault, on a board.
fn decode<'a>(rt: &impl Print, fault: Fault, h: &'a [u8], v: &'a [u8]) -> io::Result<()> {
    let mut rows = [0i32; 8193];
    let mut cols = [0i32; 8193];
    let mut orientations = [0u8; 8193];
    let mut bits = [0u8; 8193];
    let mut pbits = [0u8; 8193];
    let row = if fault == Fault::Elsewhere { 18 } else { 17 };
    let m = cut(&mut rows, &mut cols, &mut orientations, &mut pbits, row);
    let n = cut(&mut rows, &mut cols, &mut orientations, &mut bits, 17);
    cols[5] = pick(fault == Fault::Column, 1000001, cols[5]);
    pbits[6] = pick(fault == Fault::Bit, 2, pbits[6]);
    bits[0] = pick(fault == Fault::Missed, 1 - bits[0] % 2, bits[0]);
    let mut porientations = orientations;
    porientations[7] = pick(fault == Fault::Orientation, 2, porientations[7]);
    let small = 1.0 / 67108864.0;
    let mut confidences = [pick(fault == Fault::NoLogicalUnits, small, 1.0); 8193];
    confidences[8] = pick(fault == Fault::Confidence, 1.5, confidences[8]);
    let pconfidences = [pick(fault == Fault::NoPhysicalUnits, small, 1.0); 8193];
    let transforms = [
        pick(fault == Fault::Transform, 8, 0),
        1,
        2,
        pick(fault == Fault::Twice, 0, 3),
    ];
    let mut counts = [7u32; 3010];
    let mut units = [7u64; 3010];
    let some = pick(fault == Fault::Empty, 0, n);
    let logical = List {
        edges: Edges {
            rows: front(&rows, some),
            cols: front(&cols, some),
            orientations: front(&orientations, some),
            bits: front(&bits, some),
        },
        confidences: front(&confidences, some),
    };
    let physical = List {
        edges: Edges {
            rows: front(&rows, m),
            cols: front(&cols, m),
            orientations: front(&porientations, m),
            bits: front(&pbits, m),
        },
        confidences: front(&pconfidences, pick(fault == Fault::Lengths, 1, m)),
    };
    let call = HardCall {
        logical,
        physical,
        transforms: &transforms,
        tables: Tables { h, v },
        error_limit: pick(fault == Fault::Limit, 1.5, 0.001),
    };
    let answer = decode_part::decode_part(
        call,
        part_of(fault),
        front_mut(&mut counts, pick(fault == Fault::ShortCounts, 3005, 3010)),
        front_mut(&mut units, pick(fault == Fault::ShortUnits, 3005, 3010)),
    );
    print!(rt; ": ")?;
    print_part_answer(rt, answer)?;
    print_unit_room(rt, &counts, &units)?;
    println!(rt; "")
}

// The same under its name.
fn show(rt: &impl Print, name: &str, fault: Fault) -> io::Result<()> {
    print!(rt; "{name}")?;
    let mut h = [0u8; 167];
    let mut v = [0u8; 167];
    fill_patterns(&mut h, 1);
    fill_patterns(&mut v, 2);
    decode(
        rt,
        fault,
        front(&h, pick(fault == Fault::Table, 166, 167)),
        &v,
    )
}

// The early refusals, in their order.
fn early(rt: &impl Print) -> io::Result<()> {
    show(rt, "u32 room of 3005", Fault::ShortCounts)?;
    show(rt, "u64 room of 3005", Fault::ShortUnits)?;
    show(rt, "one physical confidence", Fault::Lengths)?;
    show(rt, "an empty logical list", Fault::Empty)?;
    show(rt, "column 1000001", Fault::Column)?;
    show(rt, "orientation 2", Fault::Orientation)?;
    show(rt, "bit 2", Fault::Bit)?;
    show(rt, "confidence 1.5", Fault::Confidence)?;
    show(rt, "transform 8", Fault::Transform)?;
    show(
        rt,
        "a horizontal table of 166, that of a pole",
        Fault::Table,
    )?;
    show(rt, "limit 1.5", Fault::Limit)?;
    show(rt, "a part from row 501", Fault::PartRow)?;
    show(rt, "a part from column 4294966796", Fault::PartColumn)?;
    show(rt, "a part of no rows", Fault::PartNoRows)?;
    show(rt, "a part of 502 columns", Fault::PartColumns)?;
    show(rt, "a part of 4294967295 rows", Fault::PartLargest)
}

// The call without a fault, and the late refusals, in their order.
fn late(rt: &impl Print) -> io::Result<()> {
    show(rt, "good", Fault::None)?;
    show(rt, "every logical confidence 2^-26", Fault::NoLogicalUnits)?;
    show(rt, "one edge of 288 missed, limit 0.001", Fault::Missed)?;
    show(
        rt,
        "a part from row 18, which does not hold the square",
        Fault::PartElsewhere,
    )?;
    show(
        rt,
        "every physical confidence 2^-26",
        Fault::NoPhysicalUnits,
    )?;
    show(rt, "physical list cut at row 18", Fault::Elsewhere)?;
    show(rt, "transform 0 listed twice", Fault::Twice)
}

// All of them.
pub(crate) fn show_all(rt: &impl Print) -> io::Result<()> {
    early(rt)?;
    late(rt)
}
