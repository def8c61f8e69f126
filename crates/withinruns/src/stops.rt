// Windows of 12 by 12 squares, so of 288 edges, where the answer is certain early, late or at once.
use crate::both::show_cut;
use std::io;

// A window with so many edges missed from a position on, at a limit.
fn show(rt: &impl Print, name: &str, from: usize, missed: usize, limit: f32) -> io::Result<()> {
    show_cut(
        rt, name, 167, 12, 8193, from, missed, None, 0, 2, 400, limit,
    )
}

// Three edges, of which the one at a position is missed.
fn show_three(rt: &impl Print, name: &str, at: usize, limit: f32) -> io::Result<()> {
    show_cut(rt, name, 167, 12, 3, at, 1, None, 0, 2, 400, limit)
}

// No: at the first edge, a middle one and the last.
fn fails(rt: &impl Print) -> io::Result<()> {
    show(rt, "limit 0, the first edge missed", 0, 1, 0.0)?;
    show(rt, "limit 0, edge 144 missed", 144, 1, 0.0)?;
    show(rt, "limit 0, the last edge missed", 287, 1, 0.0)?;
    show(rt, "limit 0.25, the first 73 of 288 missed", 0, 73, 0.25)?;
    show(
        rt,
        "limit 0.25, 73 missed from position 100 on",
        100,
        73,
        0.25,
    )?;
    show(rt, "limit 0.25, the last 73 missed", 215, 73, 0.25)?;
    show(rt, "limit 0.25, all missed", 0, 288, 0.25)
}

// Yes: at once, at the first edge that can decide, a middle one and the last.
fn passes(rt: &impl Print) -> io::Result<()> {
    show(rt, "limit 1, all missed", 0, 288, 1.0)?;
    show(rt, "limit 0.9999, none missed", 0, 0, 0.9999)?;
    show(rt, "limit 0.25, none missed", 0, 0, 0.25)?;
    show(rt, "limit 0.25, the first 36 missed", 0, 36, 0.25)?;
    show(rt, "limit 0.25, the first 72 missed", 0, 72, 0.25)?;
    show(rt, "limit 0.25, the last 72 missed", 216, 72, 0.25)?;
    show(rt, "limit 0, none missed", 0, 0, 0.0)?;
    show(rt, "limit -0, none missed", 0, 0, -0.0)
}

// A limit that is a rate, and its two neighbours among the f32 numbers.
fn exact(rt: &impl Print) -> io::Result<()> {
    show(rt, "72 of 288 missed, limit 0.25", 216, 72, 0.25)?;
    show(
        rt,
        "72 of 288 missed, the limit below 0.25",
        216,
        72,
        0.24999999,
    )?;
    show(
        rt,
        "72 of 288 missed, the limit above 0.25",
        216,
        72,
        0.25000003,
    )?;
    show_three(
        rt,
        "one of 3 missed, the limit a third as f32",
        2,
        0.33333334,
    )?;
    show_three(rt, "one of 3 missed, the limit below it", 2, 0.33333331)?;
    show_three(rt, "one of 3 missed, the limit above it", 2, 0.33333337)
}

// All runs.
pub(crate) fn show_all(rt: &impl Print) -> io::Result<()> {
    fails(rt)?;
    passes(rt)?;
    exact(rt)
}
