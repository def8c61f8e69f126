// The soft winner against the logical list: hard selection on it, the verdict, and the figures of the physical list where the answer is found.
#![tactic(auto)]

ghost use Rattle.std.specs.Prelude.{◌≡◌, ◌≤◌, ◌<◌, length};
ghost use Rattle.board.specs.Hits.{edges};
ghost use Rattle.tables.specs.Built.{TablesReady};
ghost use Rattle.hard.specs.SelectLaws.{RoomReady, room_cells};
ghost use Rattle.admission.specs.Accepted.{HardAccepted};
ghost use Rattle.soft_logical.specs.Logical.{cell_fit, FitDone, LogicalDone};
ghost use Rattle.admission.specs.CallsGiven.{hard_call_of};
ghost use Rattle.board.specs.Given.{board_of, list_of};

use admission::call::HardCall;
use answer::SoftAnswer;
use board::list::List;
use board::pattern::Tables;
use figures::Fit;
use laws::Periods;
use soft_verdict::{SoftBest, soft_decoded, soft_verdict};

// The hits and the weight of one origin, read off the tables in the room.
fn fit_at(counts: &[u32], weights: &[f32], periods: Periods, edges: u32, row: u32, col: u32) -> Fit
    requires { RoomReady periods.h periods.v edges counts.now weights.now }
    ensures { result ≡ cell_fit periods.h periods.v (room_cells periods.h periods.v counts.now weights.now) row col }
{
    let r = row as usize;
    let c = col as usize;
    let h = periods.h;
    let v = periods.v;
    let a = r % h * 3 + c % 3;
    let b = 3 * h + (r % 3 * v + c % v);
    Fit {
        hits: counts[a] + counts[b],
        weight: weights[a] + weights[b],
    }
}

// The hits and the weight of one placing of a list: the tables of its transform are built once more, and read at its origin.
fn fit_of(
    list: List,
    transform: u8,
    row: u32,
    col: u32,
    tables: Tables,
    counts: &mut [u32],
    weights: &mut [f32],
) -> Fit
    requires { TablesReady (board_of tables) (list_of list) transform counts.old weights.old }
    ensures { FitDone (board_of tables.entry) (list_of list.entry) transform row col counts.old counts.new weights.old weights.new result }
{
    tables::build::build_tables(list, transform, tables, counts, weights);
    fit_at(
        counts,
        weights,
        Periods {
            h: tables.h.len(),
            v: tables.v.len(),
        },
        list.edges.rows.len() as u32,
        row,
        col,
    )
}

// The soft winner with its margin, against hard selection on the logical list: refused by that, the winners differ, not far ahead, or found. The room is left as it was used.
pub fn soft_logical(
    best: SoftBest,
    call: HardCall,
    counts: &mut [u32],
    weights: &mut [f32],
) -> SoftAnswer
    requires hard_accepted { HardAccepted
        (hard_call_of call) (length counts.old) (length weights.old) }
    requires listed_in_bounds { (best.first.placing.listed < length call.transforms.now) × (best.second.placing.listed < length call.transforms.now) }
    ensures { LogicalDone
        (hard_call_of call.entry) best
        counts.old counts.new weights.old weights.new result }
{
    let (w, runner) = hard::select::select(
        call.logical,
        call.transforms,
        call.tables,
        call.error_limit,
        counts,
        weights,
    )?;
    let at = best.first.placing.listed;
    let behind = best.second.placing.listed;
    let other = w.placing.listed;
    let t = call.transforms[at];
    let u = call.transforms[behind];
    let s = call.transforms[other];
    soft_verdict(t, best, s, w, runner, call.logical.edges.rows.len() as u32)?;
    let own = fit_of(
        call.physical,
        t,
        best.first.placing.row,
        best.first.placing.col,
        call.tables,
        counts,
        weights,
    );
    Ok(soft_decoded(
        t,
        u,
        best,
        own,
        call.physical.edges.rows.len() as u32,
        runner,
    ))
}
