// The engine without tables for C and Rust programs: each slice is a pointer and then its length.
#![tactic(auto)]

ghost use Rattle.board.specs.Hits.{edges, tables};
ghost use Rattle.export_locate.specs.Exports.{LocateFlat};

use board::list::{Edges, List};
use board::pattern::Tables;
use flat_located::FlatLocated;

// Locates one list without lent room: which square the camera faces by hits alone, or a refusal.
pub fn samburext_locate_3<'a>(
    rows: &'a [i32],
    cols: &'a [i32],
    orientations: &'a [u8],
    bits: &'a [u8],
    confidences: &'a [f32],
    transforms: &'a [u8],
    h: &'a [u8],
    v: &'a [u8],
    error_limit: f32,
) -> FlatLocated
    ensures { LocateFlat (tables h.now v.now)
        (edges rows.now cols.now orientations.now bits.now confidences.now)
        transforms.now error_limit result }
{
    let list = List {
        edges: Edges {
            rows,
            cols,
            orientations,
            bits,
        },
        confidences,
    };
    let tables = Tables { h, v };
    let answer = locate::locate(list, transforms, tables, error_limit);
    flat_located::flattened_located(answer)
}
