// The smallest list of which the engines name different runners-up: two edges at row 0 and column 0, one horizontal and one vertical, both of bit 1, on a pole of four patterns. One bit is
// set in either table, so one placing has two hits, and every other of its horizontal or of its vertical class has one. The tables' runner-up is the first other cell by cell position; the
// located one is the first origin, row by row. One edge alone is never found, for other origins of its class have as many hits, so no smaller list shows it.
use crate::both::show_both;
use std::io;

pub(crate) fn show_all(rt: &impl Print) -> io::Result<()> {
    print!(rt; "two edges on a pole of 4")?;
    let mut h = [0u8; 4];
    h[1] = 1;
    let mut v = [0u8; 167];
    v[1] = 1;
    let zeros = [0i32; 2];
    let orientations = [0u8, 1];
    let bits = [1u8; 2];
    let confidences = [1.0f32; 2];
    let first = [0u8; 1];
    show_both(
        rt,
        &zeros,
        &zeros,
        &orientations,
        &bits,
        &confidences,
        &first,
        &h,
        &v,
        1.0,
    )
}
