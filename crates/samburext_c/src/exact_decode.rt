// Exact decode for C and Rust programs: each slice is a pointer and then its length.
ghost use Rattle.board.specs.Hits.{edges, tables};
ghost use Rattle.admission.specs.Calls.{hard_call};
ghost use Rattle.export_exact.specs.Exports.{ExactFlat};

use flat_exact::FlatExact;

// Exact decode: which square the camera faces by its two edge lists, with weights that add without rounding, or a refusal.
#[unsafe(no_mangle)]
pub extern "C" fn samburext_decode_exact_3<'a>(
    lrows: &[i32],
    lcols: &[i32],
    lorientations: &[u8],
    lbits: &[u8],
    lconfidences: &[f32],
    prows: &[i32],
    pcols: &[i32],
    porientations: &[u8],
    pbits: &[u8],
    pconfidences: &[f32],
    transforms: &[u8],
    h: &'a [u8],
    v: &'a [u8],
    error_limit: f32,
    counts: &mut [u32],
    units: &mut [u64],
) -> FlatExact
    ensures { ExactFlat
        (hard_call
        (edges lrows.now lcols.now lorientations.now lbits.now lconfidences.now)
        (edges prows.now pcols.now porientations.now pbits.now pconfidences.now)
        transforms.now (tables h.now v.now) error_limit)
        counts.old counts.new units.old units.new result }
{
    export_exact::samburext_decode_exact_3(
        lrows,
        lcols,
        lorientations,
        lbits,
        lconfidences,
        prows,
        pcols,
        porientations,
        pbits,
        pconfidences,
        transforms,
        h,
        v,
        error_limit,
        counts,
        units,
    )
}
