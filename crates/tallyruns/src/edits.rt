// Many edits in a row on one list of 24 places, each beside a recount of the list from nothing.
use answer::Square;
use board::edge::Edge;
use board::list::{Edges, List};
use board::pattern::Tables;
use runs::cut::fill_patterns;
use std::io;
use tally::{Tally, TallyAnswer};

// A number that looks random, below 2^31, after x.
fn next_random(x: u64) -> u64 {
    (x % 2147483648 * 1103515245 + 12345) % 2147483648
}

// A byte as a coordinate.
fn wide(x: u8) -> i32 {
    x as i32
}

// A number below 32, of the bits of x from a unit on.
fn part_of(x: u64, unit: u64) -> u8 {
    if unit == 0 {
        return 0;
    }
    (x / unit % 32) as u8
}

// An edge that looks random: row and column below 32.
fn edge_of(x: u64) -> Edge {
    let row = wide(part_of(x, 64));
    let col = wide(part_of(x, 2048));
    let orientation = part_of(x, 65536) % 2;
    let bit = part_of(x, 524288) % 2;
    Edge {
        row,
        col,
        orientation,
        bit,
    }
}

// How a run went: its record, and how many edits were kept and refused, and how many records differed from the recount.
#[derive(Clone, Copy)]
struct Course {
    tally: Tally,
    kept: u32,
    refused: u32,
    wrong: u32,
}

// A count and one more.
fn bump(n: u32) -> u32 {
    if n < 1000000 {
        return n + 1;
    }
    n
}

// The records that differed, one more where this one does.
fn wronged(n: u32, right: bool) -> u32 {
    if right {
        return n;
    }
    bump(n)
}

// Whether two records have the same counts.
fn same(a: Tally, b: Tally) -> bool {
    if a.edges != b.edges {
        return false;
    }
    if a.horizontal_hits != b.horizontal_hits {
        return false;
    }
    if a.horizontal_misses != b.horizontal_misses {
        return false;
    }
    if a.vertical_hits != b.vertical_hits {
        return false;
    }
    a.vertical_misses == b.vertical_misses
}

// Whether a record is the one that is counted from nothing.
fn recounted(counted: TallyAnswer, tally: Tally) -> bool {
    match counted {
        Ok(t) => same(t, tally),
        Err(_) => false,
    }
}

// One edit: half of them add, a quarter remove and a quarter flip.
fn edit<'a>(
    rows: &mut [i32; 24],
    cols: &mut [i32; 24],
    orientations: &mut [u8; 24],
    bits: &mut [u8; 24],
    confidences: &mut [f32; 24],
    tally: Tally,
    x: u64,
    y: u64,
    h: &'a [u8],
    v: &'a [u8],
) -> TallyAnswer {
    let kind = part_of(x, 67108864);
    let position = part_of(x, 65536) as u32;
    if kind < 16 {
        return tally_add::tally_add(
            rows,
            cols,
            orientations,
            bits,
            confidences,
            tally,
            edge_of(y),
            1.0,
            Tables { h, v },
        );
    }
    if kind < 24 {
        return tally_remove::tally_remove(
            rows,
            cols,
            orientations,
            bits,
            confidences,
            tally,
            position,
            Tables { h, v },
        );
    }
    tally_flip::tally_flip(
        rows,
        cols,
        orientations,
        bits,
        confidences,
        tally,
        position,
        Tables { h, v },
    )
}

// One edit told in the course, beside a recount of the list that it left.
fn told(course: Course, answer: TallyAnswer, counted: TallyAnswer) -> Course {
    match answer {
        Ok(t) => {
            let right = recounted(counted, t);
            Course {
                tally: t,
                kept: bump(course.kept),
                refused: course.refused,
                wrong: wronged(course.wrong, right),
            }
        }
        Err(_) => {
            let before = course.tally;
            let right = recounted(counted, before);
            Course {
                tally: before,
                kept: course.kept,
                refused: bump(course.refused),
                wrong: wronged(course.wrong, right),
            }
        }
    }
}

// One edit of the list, and the recount after it.
fn step<'a>(
    rows: &mut [i32; 24],
    cols: &mut [i32; 24],
    orientations: &mut [u8; 24],
    bits: &mut [u8; 24],
    confidences: &mut [f32; 24],
    course: Course,
    x: u64,
    h: &'a [u8],
    v: &'a [u8],
) -> Course {
    let before = course.tally;
    let answer = edit(
        rows,
        cols,
        orientations,
        bits,
        confidences,
        before,
        x,
        next_random(x),
        h,
        v,
    );
    let counted = recount(
        rows,
        cols,
        orientations,
        bits,
        confidences,
        edges_after(before, answer),
        before.square,
        Tables { h, v },
    );
    told(course, answer, counted)
}

// The tally of the first edges of the list, counted anew.
fn recount(
    rows: &[i32],
    cols: &[i32],
    orientations: &[u8],
    bits: &[u8],
    confidences: &[f32],
    edges: u32,
    square: Square,
    tables: Tables,
) -> TallyAnswer {
    let list = List {
        edges: Edges {
            rows,
            cols,
            orientations,
            bits,
        },
        confidences,
    };
    tally_of::tally_of(list, edges, square, tables)
}

// How many edges the list has after an edit.
fn edges_after(before: Tally, answer: TallyAnswer) -> u32 {
    match answer {
        Ok(t) => t.edges,
        Err(_) => before.edges,
    }
}

// A run of 400 edits from an empty list at a placing of a board whose horizontal table has `length` patterns.
fn run(length: usize, square: Square, seed: u64) -> Course {
    let mut h = [0u8; 500];
    let mut v = [0u8; 167];
    fill_patterns(&mut h, 1);
    fill_patterns(&mut v, 2);
    let board = slices::part::front(&h, length);
    let mut rows = [0i32; 24];
    let mut cols = [0i32; 24];
    let mut orientations = [0u8; 24];
    let mut bits = [0u8; 24];
    let mut confidences = [0.0f32; 24];
    let mut course = Course {
        tally: Tally {
            square,
            edges: 0,
            horizontal_hits: 0,
            horizontal_misses: 0,
            vertical_hits: 0,
            vertical_misses: 0,
        },
        kept: 0,
        refused: 0,
        wrong: 0,
    };
    let mut x = seed;
    for _ in 0..400u32 {
        x = next_random(next_random(x));
        course = step(
            &mut rows,
            &mut cols,
            &mut orientations,
            &mut bits,
            &mut confidences,
            course,
            x,
            board,
            &v,
        );
    }
    course
}

// A run and how it went.
fn show_run(
    rt: &impl Print,
    length: usize,
    transform: u8,
    row: u32,
    col: u32,
    seed: u64,
) -> io::Result<()> {
    let course = run(
        length,
        Square {
            transform,
            row,
            col,
        },
        seed,
    );
    print!(rt;
        "400 edits: {} kept, {} refused, {} records that differ from the recount; the last: ",
        course.kept, course.refused, course.wrong,
    )?;
    let last = course.tally;
    crate::show::print_tally(rt, Ok(last))
}

// All runs.
pub(crate) fn show_all(rt: &impl Print) -> io::Result<()> {
    println!(rt; "the flat board")?;
    show_run(rt, 167, 0, 17, 400, 1)?;
    show_run(rt, 167, 3, 166, 167, 2)?;
    show_run(rt, 167, 5, 123, 456, 3)?;
    println!(rt; "a pole of 4")?;
    show_run(rt, 4, 1, 11, 500, 4)?;
    println!(rt; "a pole of 500")?;
    show_run(rt, 500, 6, 1499, 500, 5)
}
