// Match statistics for C and Rust programs: each slice is a pointer and then its length.
#![tactic(auto)]

ghost use Rattle.std.specs.Prelude.{◌≡◌};
ghost use Rattle.board.specs.Hits.{edges, tables};
ghost use Rattle.stats.specs.Stats.{stats_answer};
ghost use Rattle.flat.specs.Flat.{flat_stats};

use answer::Square;
use board::list::{Edges, List};
use board::pattern::Tables;
use flat::flat_stats::FlatStats;

// Match statistics: how a list fits one known transform and origin, or a refusal.
pub fn samburext_match_stats_2<'a>(
    rows: &'a [i32],
    cols: &'a [i32],
    orientations: &'a [u8],
    bits: &'a [u8],
    confidences: &'a [f32],
    transform: u32,
    row: u32,
    col: u32,
    h: &'a [u8],
    v: &'a [u8],
) -> FlatStats
    ensures { result ≡ flat_stats (stats_answer
        (edges rows.now cols.now orientations.now bits.now confidences.now)
        transform row col (tables h.now v.now)) }
{
    let list = List {
        edges: Edges {
            rows,
            cols,
            orientations,
            bits,
        },
        confidences,
    };
    let tables = Tables { h, v };
    let square = Square {
        transform: narrowing::narrowed(transform),
        row,
        col,
    };
    let answer = stats::stats::match_stats(list, square, tables);
    flat::flat_stats::flattened_stats(answer)
}
