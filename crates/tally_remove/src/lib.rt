// An edge removed from a list, and the list's record kept with it.
#![tactic(auto)]

ghost use Rattle.std.specs.Prelude.{◌≡◌};
ghost use Rattle.board.specs.Given.{board_of};
ghost use Rattle.board.specs.Hits.{edges};
ghost use Rattle.tally_remove.specs.Removed.{RemoveDone};

use board::list::{Edges, List};
use board::pattern::Tables;
use tally::{Tally, TallyAnswer};

// Removes the edge at a position from the list in the front of five lent slices: the new record, or a refusal that changes nothing. The order of the rest is kept, and the freed last place is zeroed.
pub fn tally_remove<'a>(
    rows: &'a mut [i32],
    cols: &'a mut [i32],
    orientations: &'a mut [u8],
    bits: &'a mut [u8],
    confidences: &'a mut [f32],
    tally: Tally,
    position: u32,
    tables: Tables,
) -> TallyAnswer
    ensures { RemoveDone
        (edges rows.old cols.old orientations.old bits.old confidences.old)
        tally position (board_of tables.entry) result
        (edges rows.new cols.new orientations.new bits.new confidences.new) }
{
    let edges = Edges {
        rows,
        cols,
        orientations,
        bits,
    };
    let list = List { edges, confidences };
    let hit = tally_checks::judge_named(list, tally, position, tables)?;
    let i = position as usize;
    let n = tally.edges as usize;
    let orientation = orientations[i];
    closing::close(rows, i, n);
    closing::close(cols, i, n);
    closing::close(orientations, i, n);
    closing::close(bits, i, n);
    closing::close(confidences, i, n);
    Ok(tally::without_edge(tally, orientation, hit))
}
