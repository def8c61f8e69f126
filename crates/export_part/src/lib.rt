// Decode over a part for C and Rust programs: each slice is a pointer and then its length, and the part four numbers.
#![tactic(auto)]

ghost use Rattle.board.specs.Hits.{edges, tables};
ghost use Rattle.admission.specs.Calls.{hard_call};
ghost use Rattle.export_part.specs.Exports.{part_of, PartFlat};

use admission::call::HardCall;
use board::list::{Edges, List};
use board::pattern::Tables;
use flat_part::FlatPart;
use part::Part;

// Decode over a part: which square of the part the camera faces by its two edge lists, or a refusal. The part starts at a row and a column, and has so many rows and columns of origins.
pub fn samburext_decode_part_3<'a>(
    lrows: &'a [i32],
    lcols: &'a [i32],
    lorientations: &'a [u8],
    lbits: &'a [u8],
    lconfidences: &'a [f32],
    prows: &'a [i32],
    pcols: &'a [i32],
    porientations: &'a [u8],
    pbits: &'a [u8],
    pconfidences: &'a [f32],
    transforms: &'a [u8],
    h: &'a [u8],
    v: &'a [u8],
    error_limit: f32,
    part_row: u32,
    part_col: u32,
    part_rows: u32,
    part_cols: u32,
    counts: &mut [u32],
    units: &mut [u64],
) -> FlatPart
    ensures { PartFlat
        (hard_call
        (edges lrows.now lcols.now lorientations.now lbits.now lconfidences.now)
        (edges prows.now pcols.now porientations.now pbits.now pconfidences.now)
        transforms.now (tables h.now v.now) error_limit) (part_of part_row part_col part_rows part_cols)
        counts.old counts.new units.old units.new result }
{
    let part = Part {
        row: part_row,
        col: part_col,
        rows: part_rows,
        cols: part_cols,
    };
    let logical = List {
        edges: Edges {
            rows: lrows,
            cols: lcols,
            orientations: lorientations,
            bits: lbits,
        },
        confidences: lconfidences,
    };
    let physical = List {
        edges: Edges {
            rows: prows,
            cols: pcols,
            orientations: porientations,
            bits: pbits,
        },
        confidences: pconfidences,
    };
    let call = HardCall {
        logical,
        physical,
        transforms,
        tables: Tables { h, v },
        error_limit,
    };
    let answer = decode_part::decode_part(call, part, counts, units);
    flat_part::flattened_part(answer)
}
