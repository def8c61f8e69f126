// What the checks say of horizontal tables of 0 to 510 patterns, and how much room each asks for: the least that is not refused with 1, found by halving.
use admission::call::{HardCall, SoftCall};
use answer::Square;
use board::list::{Edges, List};
use board::pattern::Tables;
use likelihood::Likelihoods;
use refusals::Admission;
use slices::part::front;
use std::io;

// More than any length of a table, and more room or rows than any asks for.
const LENGTHS: usize = 511;

const PLENTY: usize = 16384;

// The number of a refusal; 0 where there is none.
fn number_of(a: Admission) -> u32 {
    match a {
        Ok(()) => 0,
        Err(r) => r.number,
    }
}

// What the checks of hard decode say of one edge with a horizontal table of so many patterns, in so much room.
fn hard_number(length: usize, counts: usize, weights: usize) -> u32 {
    let h = [2u8; LENGTHS];
    let v = [5u8; 167];
    let rows = [3i32; 1];
    let cols = [4i32; 1];
    let zeros = [0u8; 1];
    let confidences = [0.5f32; 1];
    let list = List {
        edges: Edges {
            rows: &rows,
            cols: &cols,
            orientations: &zeros,
            bits: &zeros,
        },
        confidences: &confidences,
    };
    let call = HardCall {
        logical: list,
        physical: list,
        transforms: &zeros,
        tables: Tables {
            h: front(&h, length),
            v: &v,
        },
        error_limit: 0.5,
    };
    number_of(admission::refusal::hard_admission(call, counts, weights))
}

// The same of soft decode.
fn soft_number(length: usize, counts: usize, weights: usize, sums: usize) -> u32 {
    let h = [2u8; LENGTHS];
    let v = [5u8; 167];
    let rows = [3i32; 1];
    let cols = [4i32; 1];
    let zeros = [0u8; 1];
    let confidences = [0.5f32; 1];
    let likelihoods = [-0.5f32; 1];
    let list = List {
        edges: Edges {
            rows: &rows,
            cols: &cols,
            orientations: &zeros,
            bits: &zeros,
        },
        confidences: &confidences,
    };
    let hard = HardCall {
        logical: list,
        physical: list,
        transforms: &zeros,
        tables: Tables {
            h: front(&h, length),
            v: &v,
        },
        error_limit: 0.5,
    };
    let likelihoods = Likelihoods {
        matches: &likelihoods,
        mismatches: &likelihoods,
    };
    let call = SoftCall {
        hard,
        likelihoods,
        soft_margin: 0.5,
    };
    number_of(soft_admission::soft_admission(call, counts, weights, sums))
}

// What match statistics say of that edge at a row, and at a column.
fn stats_number(length: usize, row: u32, col: u32) -> u32 {
    let h = [2u8; LENGTHS];
    let v = [5u8; 167];
    let rows = [3i32; 1];
    let cols = [4i32; 1];
    let zeros = [0u8; 1];
    let confidences = [0.5f32; 1];
    let list = List {
        edges: Edges {
            rows: &rows,
            cols: &cols,
            orientations: &zeros,
            bits: &zeros,
        },
        confidences: &confidences,
    };
    let tables = Tables {
        h: front(&h, length),
        v: &v,
    };
    let square = Square {
        transform: 0,
        row,
        col,
    };
    match stats::stats::match_stats(list, square, tables) {
        Ok(_) => 0,
        Err(r) => r.number,
    }
}

// Whether n is not enough of one kind of room, with plenty of the others: 0 and 1 the u32 and the f32 room of hard decode, 2 to 4 the u32, f32 and i64 room of soft decode.
// Of 5 and 6: whether match statistics take n as a row, and as a column.
fn below(length: usize, kind: usize, n: u32) -> bool {
    let room = n as usize;
    match kind {
        0 => hard_number(length, room, PLENTY) == 1,
        1 => hard_number(length, PLENTY, room) == 1,
        2 => soft_number(length, room, PLENTY, PLENTY) == 1,
        3 => soft_number(length, PLENTY, room, PLENTY) == 1,
        4 => soft_number(length, PLENTY, PLENTY, room) == 1,
        5 => stats_number(length, n, 0) == 0,
        _ => stats_number(length, 0, n) == 0,
    }
}

// Two numbers, of which the first is below and the second is not.
#[derive(Clone, Copy)]
struct Span {
    low: u16,
    high: u16,
}

// The half in which the least lies.
fn halved(length: usize, kind: usize, s: Span) -> Span {
    let middle = (s.low as u32 + s.high as u32) / 2;
    if below(length, kind, middle) {
        return Span {
            low: middle as u16,
            high: s.high,
        };
    }
    Span {
        low: s.low,
        high: middle as u16,
    }
}

// The least number that is not below: 0, or what fourteen halvings of 0 to 16,384 leave.
fn least(length: usize, kind: usize) -> u32 {
    if !below(length, kind, 0) {
        return 0;
    }
    let mut span = Span {
        low: 0,
        high: 16384,
    };
    for _ in 0..14u32 {
        span = halved(length, kind, span);
    }
    span.high as u32
}

// What the seven kinds come to, and before them what hard decode says of the table in plenty of room.
fn all_of(length: usize) -> [u32; 8] {
    [
        hard_number(length, PLENTY, PLENTY),
        least(length, 0),
        least(length, 1),
        least(length, 2),
        least(length, 3),
        least(length, 4),
        least(length, 5),
        least(length, 6),
    ]
}

// Whether a length has a line of its own: the first and the last, and those around 167.
fn is_shown(length: usize) -> bool {
    if length < 8 {
        return true;
    }
    if length < 164 {
        return false;
    }
    length < 171 || 496 < length
}

// The line of a length.
fn show(rt: &impl Print, length: usize, found: [u32; 8]) -> io::Result<()> {
    if is_shown(length) {
        let [
            number,
            counts,
            weights,
            soft_counts,
            soft_weights,
            sums,
            rows,
            cols,
        ] = found;
        println!(rt;
            "length {length}: {number}, hard from {counts} u32 and {weights} f32 on, soft from {soft_counts} u32, {soft_weights} f32 and {sums} i64 on, {rows} rows and {cols} columns"
        )?;
    }
    Ok(())
}

// How many lengths are accepted, how many refused with 8, and a checksum over all that was found.
#[derive(Clone, Copy)]
struct Totals {
    accepted: u32,
    refused: u32,
    sum: u64,
}

// The next checksum: the one before times 31, plus x.
fn stir(sum: u64, x: u32) -> u64 {
    (sum % 1000000007 * 31 + x as u64) % 1000000007
}

// The checksum after what was found of one length.
fn stir_all(sum: u64, found: [u32; 8]) -> u64 {
    let mut s = sum;
    for k in 0..8 {
        s = stir(s, found[k]);
    }
    s
}

// The totals with one length more.
fn add(t: Totals, found: [u32; 8]) -> Totals {
    let number = found[0];
    Totals {
        accepted: std::num::wrapping_add_u32(t.accepted, (number == 0) as u32),
        refused: std::num::wrapping_add_u32(t.refused, (number == 8) as u32),
        sum: stir_all(t.sum, found),
    }
}

// The totals, in a line.
fn show_totals(rt: &impl Print, t: Totals) -> io::Result<()> {
    println!(rt;
        "of the lengths from 0 to 510 {} are accepted and {} refused with 8; checksum {}",
        t.accepted, t.refused, t.sum,
    )
}

// Every length.
pub(crate) fn show_all(rt: &impl Print) -> io::Result<()> {
    let mut totals = Totals {
        accepted: 0,
        refused: 0,
        sum: 0,
    };
    for length in 0..LENGTHS {
        let found = all_of(length);
        show(rt, length, found)?;
        totals = add(totals, found);
    }
    show_totals(rt, totals)?;
    Ok(())
}
