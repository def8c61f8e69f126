// The exact selection on one list: the values of each transform in turn, folded into the scan, and what it comes to.
ghost use Rattle.std.specs.Prelude.{◌≡◌, ◌<◌, length};
ghost use Rattle.exact_scan.specs.Exact.{fold_exact};
ghost use Rattle.exact.specs.Select.{UnitsToReady, units_to, ExactSelectReady, ExactDone};
ghost use Rattle.exact.specs.SelectLaws.{room_values, ValueRoomReady, ExactScanDone};
ghost use Rattle.board.specs.Given.{board_of, list_of};

use board::list::List;
use board::pattern::Tables;
use exact_scan::finish::finish_exact;
use exact_scan::fold::{empty_exact, fold_values};
use exact_scan::kept::{ExactScan, ExactSelection};
use laws::Periods;
use refusals::Refusal;
use unit_terms::value_of;
use values::table::weight_of;

// The total confidence of a list in units of 2^-24: the weights of its edges' values, added up.
pub fn unit_sum(confidences: &[f32]) -> u64
    requires { UnitsToReady confidences.now }
    ensures { result ≡ units_to confidences.now (length confidences.now) }
{
    let mut sum: u64 = 0;
    for i in 0..confidences.len() {
        let value = value_of(confidences[i]);
        sum += weight_of(value);
    }
    sum
}

// One transform's values, where they were built in the room, folded into the scan.
fn fold_value_room<'a>(
    scan: ExactScan,
    units: &'a [u64],
    periods: Periods,
    transform: u8,
) -> ExactScan
    requires value_room_ready { ValueRoomReady periods.h periods.v units.now }
    requires count_bound { scan.positions.count < 8 }
    ensures { result ≡ fold_exact periods.h periods.v transform (room_values periods.h periods.v units.now) scan }
{
    let a = 3 * periods.h;
    let e = a + 3 * periods.v;
    fold_values(scan, &units[0..a], &units[a..e], periods, transform)
}

// The exact scan of a list over all its transforms, in order: the values are built anew for each.
fn scan_values(list: List, transforms: &[u8], tables: Tables, units: &mut [u64]) -> ExactScan
    requires { ExactSelectReady (board_of tables) (list_of list) transforms.now units.old }
    ensures { ExactScanDone (board_of tables.entry) (list_of list.entry) transforms.now (length transforms.now) units.old units.new result }
{
    let periods = Periods {
        h: tables.h.len(),
        v: tables.v.len(),
    };
    let mut scan = empty_exact();
    for i in 0..transforms.len() {
        let t = transforms[i];
        units::build_units(list, t, tables, units);
        let number = transforms[i];
        scan = fold_value_room(scan, units, periods, number);
    }
    scan
}

// The exact selection on one list.
pub fn select_exact(
    list: List,
    transforms: &[u8],
    tables: Tables,
    error_limit: f32,
    units: &mut [u64],
) -> ExactSelection
    requires { ExactSelectReady (board_of tables) (list_of list) transforms.now units.old }
    ensures { ExactDone (board_of tables.entry) (list_of list.entry) transforms.now error_limit units.old units.new result }
{
    if unit_sum(list.confidences) == 0 {
        return Err(Refusal {
            number: refusals::NO_CONFIDENCE,
            place: None,
        });
    }
    let edges = list.edges.rows.len() as u32;
    let scan = scan_values(list, transforms, tables, units);
    finish_exact(scan, edges, error_limit)
}
