// The four tables of one transform as one view, which the scan reads through. The core below stays on plain slices.
ghost use Rattle.std.specs.Prelude.{◌≡◌};
ghost use Rattle.best.specs.CellTables.{cells};
ghost use Rattle.folding.specs.Transform.{fold_transform, FoldReady};
ghost use Rattle.folding.specs.View.{view_of, viewed};

use laws::Periods;
use scan::scan::{Asked, HardScan};

// Counts and weights by horizontal cell, counts and weights by vertical cell.
#[derive(Clone, Copy)]
pub struct TransformTables<'a> {
    pub h_count: &'a [u32],
    pub h_weight: &'a [f32],
    pub v_count: &'a [u32],
    pub v_weight: &'a [f32],
}

// The view of four tables.
fn view_of<'a>(hc: &'a [u32], hw: &'a [f32], vc: &'a [u32], vw: &'a [f32]) -> TransformTables<'a>
    ensures { result ≡ view_of hc.entry hw.entry vc.entry vw.entry }
{
    TransformTables {
        h_count: hc,
        h_weight: hw,
        v_count: vc,
        v_weight: vw,
    }
}

// The transform at the next list position, read through the view.
fn fold_view<'a>(
    scan: HardScan,
    t: TransformTables<'a>,
    periods: Periods,
    transform: u8,
    asked: Asked,
) -> HardScan
    requires { FoldReady periods.h periods.v asked.edges (viewed t) scan }
    ensures { result ≡ fold_transform periods.h periods.v asked.edges asked.confidence asked.error_limit transform (viewed t.entry) scan }
{
    crate::transform::fold_transform(
        scan, t.h_count, t.h_weight, t.v_count, t.v_weight, periods, transform, asked,
    )
}

// The same from four plain slices, so that callers need no view of their own.
pub fn fold_tables<'a>(
    scan: HardScan,
    hc: &'a [u32],
    hw: &'a [f32],
    vc: &'a [u32],
    vw: &'a [f32],
    periods: Periods,
    transform: u8,
    asked: Asked,
) -> HardScan
    requires { FoldReady periods.h periods.v asked.edges (cells hc.now hw.now vc.now vw.now) scan }
    ensures { result ≡ fold_transform periods.h periods.v asked.edges asked.confidence asked.error_limit transform (cells hc.now hw.now vc.now vw.now) scan }
{
    fold_view(scan, view_of(hc, hw, vc, vw), periods, transform, asked)
}
