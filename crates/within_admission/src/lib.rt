// What is refused when one placing is tested against the error limit: the early refusals 2, 3, 7, 8 and 9 of the call, and the number of a bad edge when it is reached.
#![tactic(auto)]

ghost use Rattle.std.specs.Prelude.{◌≡◌};
ghost use Rattle.within_admission.specs.WithinAdmission.{fault_of, setting_bad, within_admission};
ghost use Rattle.board.specs.Given.{board_of, list_of};

use admission::refusal::tables_bad;
use answer::Square;
use board::edge::Edge;
use board::list::List;
use board::pattern::Tables;
use checks::check::is_far;
use findings::settings_admission;
use refusals::Admission;
use stats_admission::origin_bad;

// What is wrong with no edge: the number of no refusal.
pub const NO_FAULT: u32 = 0;

// The number of the first field of one edge that is out of range, 4, 16, 17 or 5 in this order; 0 where none is.
pub fn fault_of(edge: Edge, confidence: f32) -> u32
    ensures { result ≡ fault_of edge confidence }
{
    if is_far(edge.row) || is_far(edge.col) {
        return refusals::BAD_COORDINATE;
    }
    if 1 < edge.orientation {
        return refusals::BAD_ORIENTATION;
    }
    if 1 < edge.bit {
        return refusals::BAD_BIT;
    }
    if ranges::in_range(confidence, 1.0f32) {
        return NO_FAULT;
    }
    refusals::BAD_CONFIDENCE
}

// Whether the origin is off a board with l horizontal patterns, or the error limit is no number from 0 to 1.
fn setting_bad(l: usize, row: u32, col: u32, error_limit: f32) -> bool
    ensures { result ≡ setting_bad l row col error_limit }
{
    origin_bad(l, row, col) || !ranges::in_range(error_limit, 1.0f32)
}

// The early refusals of the test: of the list only its lengths and its size are looked at, and it may be empty.
pub fn within_admission(list: List, square: Square, tables: Tables, error_limit: f32) -> Admission
    ensures { result ≡ within_admission
        (list_of list.entry)
        square.transform square.row square.col (board_of tables.entry) error_limit }
{
    if checks::check::lengths_differ(list) {
        return Err(refusals::numbered(refusals::LENGTHS_DIFFER));
    }
    if checks::check::size_bad(0, list.edges.rows.len()) {
        return Err(refusals::numbered(refusals::LIST_SIZE));
    }
    settings_admission(
        7 < square.transform,
        tables_bad(tables),
        setting_bad(tables.h.len(), square.row, square.col, error_limit),
    )
}
