// Whether match statistics are taken on: the early refusals 2 to 5, 7 to 9, 16 and 17, the first in their order, or accepted.
#![tactic(auto)]

ghost use Rattle.std.specs.Prelude.{◌≡◌};
ghost use Rattle.checks.specs.Checks.{origin_bad};
ghost use Rattle.admission.specs.Refusals.{stats_admission};
ghost use Rattle.board.specs.Given.{board_of, list_of};

use admission::refusal::tables_bad;
use answer::Square;
use board::list::List;
use board::pattern::Tables;
use findings::{list_admission, settings_admission};
use refusals::{Admission, ListName, first_of};

// Whether a given origin is off a board with l horizontal patterns: it has 3 · l rows and 501 columns.
pub fn origin_bad(l: usize, row: u32, col: u32) -> bool
    ensures { result ≡ origin_bad l row col }
{
    if l <= row as usize / 3 {
        return true;
    }
    500 < col
}

// The early refusals of match statistics, which take an empty list and no room.
pub fn stats_admission(list: List, square: Square, tables: Tables) -> Admission
    ensures { result ≡ stats_admission
        (list_of list.entry)
        square.transform square.row square.col (board_of tables.entry) }
{
    let list = list_admission(0, ListName::Only, list);
    let settings = settings_admission(
        7 < square.transform,
        tables_bad(tables),
        origin_bad(tables.h.len(), square.row, square.col),
    );
    first_of(list, settings)
}
