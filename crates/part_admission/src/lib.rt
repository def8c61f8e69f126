// Whether a call over a part of a flat board is taken on (request C-20): the early refusals 1 to 5, 7 to 9, 16 and 17, the first in their order over both lists, or accepted.
#![tactic(auto)]

ghost use Rattle.std.specs.Prelude.{◌≡◌};
ghost use Rattle.part_admission.specs.PartAdmission.{flat_tables_bad, part_settings_bad, part_admission};
ghost use Rattle.admission.specs.CallsGiven.{hard_call_of};
ghost use Rattle.board.specs.Given.{board_of};

use admission::call::HardCall;
use admission::refusal::room_short;
use board::pattern::Tables;
use findings::{list_admission, refused_if, settings_admission};
use part::Part;
use refusals::{Admission, ListName, first_of};

// How many patterns the horizontal table of a flat board has, by which room is asked for whatever table is given.
const FLAT_LENGTH: usize = 167;

// Whether one of the two pattern tables is none of a flat board, where both have 167 entries.
fn flat_tables_bad(tables: Tables) -> bool
    ensures { result ≡ flat_tables_bad (board_of tables.entry) }
{
    ranges::vertical_bad(tables.h) || ranges::vertical_bad(tables.v)
}

// Whether the error limit is no number from 0 to 1, or the part's start or size is out of range.
fn settings_bad(error_limit: f32, part: Part) -> bool
    ensures { result ≡ part_settings_bad error_limit part }
{
    if ranges::in_range(error_limit, 1.0f32) {
        return part::part_bad(part);
    }
    true
}

// The early refusals of a call over a part: the first over both lists, or accepted. The last two are the lengths of the lent room.
pub fn part_admission(call: HardCall, part: Part, counts: usize, units: usize) -> Admission
    ensures { result ≡ part_admission
        (hard_call_of call.entry) part counts units }
{
    let room = refused_if(
        room_short(FLAT_LENGTH, counts, units),
        refusals::ROOM_TOO_SHORT,
    );
    let logical = list_admission(1, ListName::Logical, call.logical);
    let physical = list_admission(1, ListName::Physical, call.physical);
    let settings = settings_admission(
        ranges::transforms_bad(call.transforms),
        flat_tables_bad(call.tables),
        settings_bad(call.error_limit, part),
    );
    first_of(room, first_of(first_of(logical, physical), settings))
}
