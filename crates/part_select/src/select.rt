// The selection on one list over the placings of a part.
ghost use Rattle.std.specs.Prelude.{◌≡◌, ◌<◌, length};
ghost use Rattle.exact.specs.SelectLaws.{ValueRoomReady};
ghost use Rattle.part.specs.Part.{RunsOk};
ghost use Rattle.part_scan.specs.Kept.{walked};
ghost use Rattle.part_scan.specs.Walk.{first_number, in_both};
ghost use Rattle.part_select.specs.Select.{room_number, FlatReady, PartSelectReady, PartScanDone, PartDone};
ghost use Rattle.board.specs.Given.{board_of, list_of};

use crate::finish::finish_part;
use crate::kept::PartSelection;
use board::list::List;
use board::pattern::Tables;
use laws::Periods;
use part::{Part, Runs, runs_of};
use part_scan::kept::PartKept;
use part_scan::walk::offer_origins;
use refusals::Refusal;

// The origins of the part at one list position, offered from where the transform's values were built in the room.
fn offer_room<'a>(
    kept: PartKept,
    units: &'a [u64],
    periods: Periods,
    listed: usize,
    down: Runs,
    across: Runs,
) -> PartKept
    requires value_room_ready { ValueRoomReady periods.h periods.v units.now × (periods.h ≡ 167) × (periods.v ≡ 167) }
    requires listed_bound { (listed < 8) × RunsOk down × RunsOk across }
    ensures { result ≡ walked (in_both down across) (room_number periods.h periods.v units.now) kept (first_number listed 0) 251001 }
{
    let a = 3 * periods.h;
    let e = a + 3 * periods.v;
    offer_origins(kept, &units[0..a], &units[a..e], listed, down, across)
}

// The placings of the part over all transforms, in order: the values are built anew for each.
fn scan_part(
    list: List,
    transforms: &[u8],
    tables: Tables,
    down: Runs,
    across: Runs,
    units: &mut [u64],
) -> PartKept
    requires flat_ready { FlatReady (board_of tables) (list_of list) transforms.now units.old }
    requires runs_ok { RunsOk down × RunsOk across }
    ensures { PartScanDone (board_of tables.entry) (list_of list.entry) transforms.now down across (length transforms.now) units.old units.new result }
{
    let periods = Periods {
        h: tables.h.len(),
        v: tables.v.len(),
    };
    let mut kept = PartKept::Nobody;
    for i in 0..transforms.len() {
        let t = transforms[i];
        units::build_units(list, t, tables, units);
        kept = offer_room(kept, units, periods, i, down, across);
    }
    kept
}

// The selection on one list over the placings of a part: 10 where the list has no confidence, 11 where no placing of the part is within the limit, else the winner with its runner-up.
pub fn select_part(
    list: List,
    transforms: &[u8],
    tables: Tables,
    part: Part,
    error_limit: f32,
    units: &mut [u64],
) -> PartSelection
    requires { PartSelectReady (board_of tables) (list_of list) transforms.now part units.old }
    ensures { PartDone (board_of tables.entry) (list_of list.entry) transforms.now part error_limit units.old units.new result }
{
    if exact::select::unit_sum(list.confidences) == 0 {
        return Err(Refusal {
            number: refusals::NO_CONFIDENCE,
            place: None,
        });
    }
    let edges = list.edges.rows.len() as u32;
    let down = runs_of(part.row, part.rows);
    let across = runs_of(part.col, part.cols);
    let kept = scan_part(list, transforms, tables, down, across, units);
    finish_part(kept, edges, error_limit)
}
