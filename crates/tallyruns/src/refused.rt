// Every refusal of an edit, and of two that apply the one that comes first. The list has three edges at row 0, column 0: two horizontal ones and a vertical one; the slices have four places.
use answer::Square;
use board::edge::Edge;
use board::pattern::Tables;
use runs::cut::fill_patterns;
use std::io;
use tally::Tally;

// A record of the flat board at row 17, column 400 under a transform.
fn record(transform: u8, row: u32, edges: u32, hits: u32, misses: u32, vertical: u32) -> Tally {
    Tally {
        square: Square {
            transform,
            row,
            col: 400,
        },
        edges,
        horizontal_hits: hits,
        horizontal_misses: misses,
        vertical_hits: 0,
        vertical_misses: vertical,
    }
}

// An edge at column 0.
fn edge(row: i32, orientation: u8, bit: u8) -> Edge {
    Edge {
        row,
        col: 0,
        orientation,
        bit,
    }
}

// An edge added to the list.
fn show_add(
    rt: &impl Print,
    name: &str,
    tally: Tally,
    added: Edge,
    confidence: f32,
    length: usize,
) -> io::Result<()> {
    let mut h = [0u8; 167];
    let mut v = [0u8; 167];
    fill_patterns(&mut h, 1);
    fill_patterns(&mut v, 2);
    let mut rows = [0i32; 4];
    let mut cols = [0i32; 4];
    let mut orientations = [0u8, 0, 1, 0];
    let mut bits = [0u8, 1, 0, 0];
    let mut confidences = [1.0f32; 4];
    print!(rt; "{name}")?;
    crate::show::print_tally(
        rt,
        tally_add::tally_add(
            &mut rows,
            &mut cols,
            &mut orientations,
            &mut bits,
            &mut confidences,
            tally,
            added,
            confidence,
            Tables {
                h: slices::part::front(&h, length),
                v: &v,
            },
        ),
    )
}

// The same, where the slice of bits has three places.
fn show_short(
    rt: &impl Print,
    name: &str,
    tally: Tally,
    added: Edge,
    confidence: f32,
    length: usize,
) -> io::Result<()> {
    let mut h = [0u8; 167];
    let mut v = [0u8; 167];
    fill_patterns(&mut h, 1);
    fill_patterns(&mut v, 2);
    let mut rows = [0i32; 4];
    let mut cols = [0i32; 4];
    let mut orientations = [0u8, 0, 1, 0];
    let mut bits = [0u8, 1, 0];
    let mut confidences = [1.0f32; 4];
    print!(rt; "{name}")?;
    crate::show::print_tally(
        rt,
        tally_add::tally_add(
            &mut rows,
            &mut cols,
            &mut orientations,
            &mut bits,
            &mut confidences,
            tally,
            added,
            confidence,
            Tables {
                h: slices::part::front(&h, length),
                v: &v,
            },
        ),
    )
}

// An edge of the list removed, then flipped; its first edge has an orientation and a confidence.
fn show_named(
    rt: &impl Print,
    name: &str,
    tally: Tally,
    position: u32,
    orientation: u8,
    confidence: f32,
    length: usize,
) -> io::Result<()> {
    let mut h = [0u8; 167];
    let mut v = [0u8; 167];
    fill_patterns(&mut h, 1);
    fill_patterns(&mut v, 2);
    let mut rows = [0i32; 4];
    let mut cols = [0i32; 4];
    let mut orientations = [orientation, 0, 1, 0];
    let mut bits = [0u8, 1, 0, 0];
    let mut confidences = [confidence; 4];
    let board = slices::part::front(&h, length);
    print!(rt; "{name}")?;
    crate::show::print_tally(
        rt,
        tally_flip::tally_flip(
            &rows,
            &cols,
            &orientations,
            &mut bits,
            &confidences,
            tally,
            position,
            Tables { h: board, v: &v },
        ),
    )?;
    print!(rt; "{name}")?;
    crate::show::print_tally(
        rt,
        tally_remove::tally_remove(
            &mut rows,
            &mut cols,
            &mut orientations,
            &mut bits,
            &mut confidences,
            tally,
            position,
            Tables { h: board, v: &v },
        ),
    )
}

// The order of an addition's refusals, each with all that come after it bad too.
fn adding(rt: &impl Print) -> io::Result<()> {
    let bad = edge(2000000, 2, 2);
    show_short(
        rt,
        "2: slices differ: ",
        record(8, 501, 5, 1, 1, 1),
        bad,
        1.5,
        3,
    )?;
    show_add(
        rt,
        "24: longer than the slices: ",
        record(8, 501, 5, 2, 2, 1),
        bad,
        1.5,
        3,
    )?;
    show_add(
        rt,
        "24: counts do not add up: ",
        record(8, 501, 4, 1, 1, 1),
        bad,
        1.5,
        3,
    )?;
    show_add(
        rt,
        "24: counts that add up to 2^32 + 3: ",
        record(8, 501, 3, 4294967295, 4, 0),
        bad,
        1.5,
        3,
    )?;
    show_add(
        rt,
        "3: full slices: ",
        record(8, 501, 4, 1, 2, 1),
        bad,
        1.5,
        3,
    )?;
    show_add(
        rt,
        "4: coordinate: ",
        record(8, 501, 3, 1, 1, 1),
        bad,
        1.5,
        3,
    )?;
    show_add(
        rt,
        "16: orientation: ",
        record(8, 501, 3, 1, 1, 1),
        edge(0, 2, 2),
        1.5,
        3,
    )?;
    show_add(
        rt,
        "17: bit: ",
        record(8, 501, 3, 1, 1, 1),
        edge(0, 1, 2),
        1.5,
        3,
    )?;
    show_add(
        rt,
        "5: confidence: ",
        record(8, 501, 3, 1, 1, 1),
        edge(0, 1, 1),
        1.5,
        3,
    )?;
    show_add(
        rt,
        "7: transform: ",
        record(8, 501, 3, 1, 1, 1),
        edge(0, 1, 1),
        1.0,
        3,
    )?;
    show_add(
        rt,
        "8: table: ",
        record(7, 501, 3, 1, 1, 1),
        edge(0, 1, 1),
        1.0,
        3,
    )?;
    show_add(
        rt,
        "9: origin: ",
        record(7, 501, 3, 1, 1, 1),
        edge(0, 1, 1),
        1.0,
        167,
    )?;
    show_add(
        rt,
        "kept: ",
        record(7, 500, 3, 1, 1, 1),
        edge(0, 1, 1),
        1.0,
        167,
    )
}

// The same of an edge that is flipped and removed.
fn naming(rt: &impl Print) -> io::Result<()> {
    show_named(
        rt,
        "24: counts do not add up: ",
        record(8, 501, 4, 1, 1, 1),
        0,
        2,
        1.5,
        3,
    )?;
    show_named(
        rt,
        "16: orientation: ",
        record(8, 501, 3, 1, 1, 1),
        0,
        2,
        1.5,
        3,
    )?;
    show_named(
        rt,
        "5: confidence: ",
        record(8, 501, 3, 1, 1, 1),
        0,
        0,
        1.5,
        3,
    )?;
    show_named(
        rt,
        "7: transform, before 18: ",
        record(8, 501, 3, 1, 1, 1),
        3,
        2,
        1.5,
        3,
    )?;
    show_named(
        rt,
        "8: table, before 18: ",
        record(7, 501, 3, 1, 1, 1),
        3,
        2,
        1.5,
        3,
    )?;
    show_named(
        rt,
        "9: origin, before 18: ",
        record(7, 501, 3, 1, 1, 1),
        3,
        2,
        1.5,
        167,
    )?;
    show_named(
        rt,
        "18: no such edge: ",
        record(7, 500, 3, 1, 1, 1),
        3,
        2,
        1.5,
        167,
    )?;
    show_named(
        rt,
        "24: no such hit or miss to give up: ",
        record(7, 500, 3, 0, 0, 3),
        0,
        0,
        1.0,
        167,
    )?;
    show_named(rt, "kept: ", record(7, 500, 3, 1, 1, 1), 0, 0, 1.0, 167)
}

// All refusals.
pub(crate) fn show_all(rt: &impl Print) -> io::Result<()> {
    println!(rt; "adding an edge")?;
    adding(rt)?;
    println!(rt; "flipping an edge, and removing it")?;
    naming(rt)
}
