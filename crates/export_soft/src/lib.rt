// Soft decode for C and Rust programs: each slice is a pointer and then its length.
#![tactic(auto)]

ghost use Rattle.board.specs.Hits.{edges, tables};
ghost use Rattle.likelihood.specs.Likelihood.{likelihoods};
ghost use Rattle.admission.specs.Calls.{soft_call};
ghost use Rattle.export_soft.specs.Exports.{SoftFlat};

use admission::call::{HardCall, SoftCall};
use board::list::{Edges, List};
use board::pattern::Tables;
use flat::flat_soft::FlatSoft;
use likelihood::Likelihoods;

// Soft decode: which square the camera faces by the likelihoods of the physical list, confirmed by the hits of the logical list, or a refusal.
pub fn samburext_decode_soft_3<'a>(
    lrows: &'a [i32],
    lcols: &'a [i32],
    lorientations: &'a [u8],
    lbits: &'a [u8],
    lconfidences: &'a [f32],
    prows: &'a [i32],
    pcols: &'a [i32],
    porientations: &'a [u8],
    pbits: &'a [u8],
    pconfidences: &'a [f32],
    matches: &'a [f32],
    mismatches: &'a [f32],
    transforms: &'a [u8],
    h: &'a [u8],
    v: &'a [u8],
    error_limit: f32,
    soft_margin: f32,
    counts: &mut [u32],
    weights: &mut [f32],
    sums: &mut [i64],
) -> FlatSoft
    ensures { SoftFlat
        (soft_call
        (edges lrows.now lcols.now lorientations.now lbits.now lconfidences.now)
        (edges prows.now pcols.now porientations.now pbits.now pconfidences.now)
        (likelihoods matches.now mismatches.now)
        transforms.now (tables h.now v.now) error_limit soft_margin)
        counts.old counts.new weights.old weights.new sums.old sums.new result }
{
    let logical = List {
        edges: Edges {
            rows: lrows,
            cols: lcols,
            orientations: lorientations,
            bits: lbits,
        },
        confidences: lconfidences,
    };
    let physical = List {
        edges: Edges {
            rows: prows,
            cols: pcols,
            orientations: porientations,
            bits: pbits,
        },
        confidences: pconfidences,
    };
    let hard = HardCall {
        logical,
        physical,
        transforms,
        tables: Tables { h, v },
        error_limit,
    };
    let likelihoods = Likelihoods {
        matches,
        mismatches,
    };
    let call = SoftCall {
        hard,
        likelihoods,
        soft_margin,
    };
    let answer = decode_soft::decode_soft(call, counts, weights, sums);
    flat::flat_soft::flattened_soft(answer)
}
