// Hard selection on one list: the tables of each transform in turn, folded into the scan, and what it comes to.
ghost use Rattle.std.specs.Prelude.{◌≡◌, ◌*◌, ◌+◌, ◌<◌, length};
ghost use Rattle.folding.specs.Transform.{fold_transform};
ghost use Rattle.hard.specs.Select.{SelectReady, SelectDone};
ghost use Rattle.hard.specs.SelectLaws.{room_cells, RoomReady, ScanDone};
ghost use Rattle.board.specs.Given.{board_of, list_of};

use board::list::List;
use board::pattern::Tables;
use laws::Periods;
use refusals::Refusal;
use scan::scan::{Asked, Candidate, HardScan, RunnerUp};

// What a selection comes to: refused (no confidence, nothing within the limit), or the winner with its runner-up.
pub type Selection = Result<(Candidate, RunnerUp), Refusal>;

// One transform's tables, where they were built in the room, folded into the scan.
fn fold_room<'a>(
    scan: HardScan,
    counts: &'a [u32],
    weights: &'a [f32],
    periods: Periods,
    transform: u8,
    asked: Asked,
) -> HardScan
    requires room_ready { RoomReady periods.h periods.v asked.edges counts.now weights.now }
    requires count_bound { scan.count < 8 }
    ensures { result ≡ fold_transform periods.h periods.v asked.edges asked.confidence asked.error_limit transform (room_cells periods.h periods.v counts.now weights.now) scan }
{
    let a = 3 * periods.h;
    let e = a + 3 * periods.v;
    folding::view::fold_tables(
        scan,
        &counts[0..a],
        &weights[0..a],
        &counts[a..e],
        &weights[a..e],
        periods,
        transform,
        asked,
    )
}

// The scan of a list over all its transforms, in order: the tables are built anew for each.
fn scan_transforms(
    list: List,
    transforms: &[u8],
    tables: Tables,
    confidence: f32,
    error_limit: f32,
    counts: &mut [u32],
    weights: &mut [f32],
) -> HardScan
    requires { SelectReady (board_of tables) (list_of list) transforms.now counts.old weights.old }
    ensures { ScanDone (board_of tables.entry) (list_of list.entry) transforms.now confidence error_limit (length transforms.now) counts.old counts.new weights.old weights.new result }
{
    let periods = Periods {
        h: tables.h.len(),
        v: tables.v.len(),
    };
    let edges = list.edges.rows.len() as u32;
    let asked = Asked {
        edges,
        confidence,
        error_limit,
    };
    let mut scan = scan::record::empty();
    for i in 0..transforms.len() {
        let t = transforms[i];
        tables::build::build_tables(list, t, tables, counts, weights);
        let number = transforms[i];
        scan = fold_room(scan, counts, weights, periods, number, asked);
    }
    scan
}

// The selection on one list.
pub fn select(
    list: List,
    transforms: &[u8],
    tables: Tables,
    error_limit: f32,
    counts: &mut [u32],
    weights: &mut [f32],
) -> Selection
    requires { SelectReady (board_of tables) (list_of list) transforms.now counts.old weights.old }
    ensures { SelectDone (board_of tables.entry) (list_of list.entry) transforms.now error_limit counts.old counts.new weights.old weights.new result }
{
    let confidence = figures::total_confidence(list.confidences);
    if confidence == 0.0 {
        return Err(Refusal {
            number: refusals::NO_CONFIDENCE,
            place: None,
        });
    }
    let scan = scan_transforms(
        list,
        transforms,
        tables,
        confidence,
        error_limit,
        counts,
        weights,
    );
    match scan::record::finish(scan) {
        None => Err(Refusal {
            number: refusals::NONE_WITHIN_LIMIT,
            place: None,
        }),
        Some((winner, runner_up)) => Ok((winner, runner_up)),
    }
}
