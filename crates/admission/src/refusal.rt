// Whether a hard call is taken on: the early refusals 1 to 9, 16 and 17, the first in their order over both lists, or accepted.
ghost use Rattle.std.specs.Prelude.{◌≡◌, ◌≤◌};
ghost use Rattle.admission.specs.Refusals.{asked_length, room_short, tables_bad, hard_admission};
ghost use Rattle.admission.specs.CallsGiven.{hard_call_of};
ghost use Rattle.board.specs.Given.{board_of};

use crate::call::HardCall;
use board::pattern::Tables;
use findings::{list_admission, refused_if, settings_admission};
use refusals::{Admission, ListName, first_of};

// The length by which room is asked for: that of the horizontal table, or the smallest where the table may not have its own.
pub fn asked_length(l: usize) -> usize
    ensures { (result ≡ asked_length l) × (result ≤ 500) }
{
    if ranges::pole_length(l) {
        l
    } else {
        ranges::LEAST_LENGTH
    }
}

// Whether the room of a hard call with l horizontal patterns is too short.
pub fn room_short(l: usize, counts: usize, weights: usize) -> bool
    ensures { result ≡ room_short l counts weights }
{
    let least = room::tables_for(asked_length(l));
    counts < least || weights < least
}

// Whether one of the two pattern tables is wrong.
pub fn tables_bad(tables: Tables) -> bool
    ensures { result ≡ tables_bad (board_of tables.entry) }
{
    ranges::horizontal_bad(tables.h) || ranges::vertical_bad(tables.v)
}

// The early refusals of a hard call: the first over both lists, or accepted. The last two are the lengths of the lent room.
pub fn hard_admission(call: HardCall, counts: usize, weights: usize) -> Admission
    ensures { result ≡ hard_admission
        (hard_call_of call.entry) counts weights }
{
    let room = refused_if(
        room_short(call.tables.h.len(), counts, weights),
        refusals::ROOM_TOO_SHORT,
    );
    let logical = list_admission(1, ListName::Logical, call.logical);
    let physical = list_admission(1, ListName::Physical, call.physical);
    let settings = settings_admission(
        ranges::transforms_bad(call.transforms),
        tables_bad(call.tables),
        !ranges::in_range(call.error_limit, 1.0f32),
    );
    first_of(room, first_of(first_of(logical, physical), settings))
}
