// Match statistics for C and Rust programs: each slice is a pointer and then its length.
ghost use Rattle.std.specs.Prelude.{◌≡◌};
ghost use Rattle.board.specs.Hits.{edges, tables};
ghost use Rattle.stats.specs.Stats.{stats_answer};
ghost use Rattle.flat.specs.Flat.{flat_stats};

use flat::flat_stats::FlatStats;

// Match statistics: how a list fits one known transform and origin, or a refusal.
#[unsafe(no_mangle)]
pub extern "C" fn samburext_match_stats_2<'a>(
    rows: &[i32],
    cols: &[i32],
    orientations: &[u8],
    bits: &[u8],
    confidences: &[f32],
    transform: u32,
    row: u32,
    col: u32,
    h: &'a [u8],
    v: &'a [u8],
) -> FlatStats
    ensures { result ≡ flat_stats (stats_answer
        (edges rows.now cols.now orientations.now bits.now confidences.now)
        transform row col (tables h.now v.now)) }
{
    export_stats::samburext_match_stats_2(
        rows,
        cols,
        orientations,
        bits,
        confidences,
        transform,
        row,
        col,
        h,
        v,
    )
}
