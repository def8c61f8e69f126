// Exact decode for C and Rust programs: each slice is a pointer and then its length.
#![tactic(auto)]

ghost use Rattle.board.specs.Hits.{edges, tables};
ghost use Rattle.admission.specs.Calls.{hard_call};
ghost use Rattle.export_exact.specs.Exports.{ExactFlat};

use admission::call::HardCall;
use board::list::{Edges, List};
use board::pattern::Tables;
use flat_exact::FlatExact;

// Exact decode: which square the camera faces by its two edge lists, with weights that add without rounding, or a refusal.
pub fn samburext_decode_exact_3<'a>(
    lrows: &'a [i32],
    lcols: &'a [i32],
    lorientations: &'a [u8],
    lbits: &'a [u8],
    lconfidences: &'a [f32],
    prows: &'a [i32],
    pcols: &'a [i32],
    porientations: &'a [u8],
    pbits: &'a [u8],
    pconfidences: &'a [f32],
    transforms: &'a [u8],
    h: &'a [u8],
    v: &'a [u8],
    error_limit: f32,
    counts: &mut [u32],
    units: &mut [u64],
) -> FlatExact
    ensures { ExactFlat
        (hard_call
        (edges lrows.now lcols.now lorientations.now lbits.now lconfidences.now)
        (edges prows.now pcols.now porientations.now pbits.now pconfidences.now)
        transforms.now (tables h.now v.now) error_limit)
        counts.old counts.new units.old units.new result }
{
    let logical = List {
        edges: Edges {
            rows: lrows,
            cols: lcols,
            orientations: lorientations,
            bits: lbits,
        },
        confidences: lconfidences,
    };
    let physical = List {
        edges: Edges {
            rows: prows,
            cols: pcols,
            orientations: porientations,
            bits: pbits,
        },
        confidences: pconfidences,
    };
    let call = HardCall {
        logical,
        physical,
        transforms,
        tables: Tables { h, v },
        error_limit,
    };
    let answer = decode_exact::decode_exact(call, counts, units);
    flat_exact::flattened_exact(answer)
}
