// The test of one placing against the error limit for C and Rust programs: each slice is a pointer and then its length.
#![tactic(auto)]

ghost use Rattle.std.specs.Prelude.{◌≡◌};
ghost use Rattle.board.specs.Hits.{edges, tables};
ghost use Rattle.within.specs.Within.{within_answer};
ghost use Rattle.flat_within.specs.FlatWithin.{flat_within};

use answer::Square;
use board::list::{Edges, List};
use board::pattern::Tables;
use flat_within::FlatWithin;

// Whether a list at one known transform and origin is within the error limit, and how many edges were read to know it, or a refusal.
pub fn samburext_within_limit_1<'a>(
    rows: &'a [i32],
    cols: &'a [i32],
    orientations: &'a [u8],
    bits: &'a [u8],
    confidences: &'a [f32],
    transform: u32,
    row: u32,
    col: u32,
    h: &'a [u8],
    v: &'a [u8],
    error_limit: f32,
) -> FlatWithin
    ensures { result ≡ flat_within (within_answer
        (edges rows.now cols.now orientations.now bits.now confidences.now)
        transform row col (tables h.now v.now) error_limit) }
{
    let list = List {
        edges: Edges {
            rows,
            cols,
            orientations,
            bits,
        },
        confidences,
    };
    let tables = Tables { h, v };
    let square = Square {
        transform: narrowing::narrowed(transform),
        row,
        col,
    };
    let answer = within::within_limit(list, square, tables, error_limit);
    flat_within::flattened_within(answer)
}
