// An edge's bit flipped, and the list's record kept with it.
#![tactic(auto)]

ghost use Rattle.std.specs.Prelude.{◌≡◌};
ghost use Rattle.board.specs.Given.{board_of};
ghost use Rattle.board.specs.Hits.{edges};
ghost use Rattle.tally_flip.specs.Flipped.{FlipDone};

use board::list::{Edges, List};
use board::pattern::Tables;
use tally::{Tally, TallyAnswer};

// Flips the bit of the edge at a position of the list in the front of five lent slices: the new record, or a refusal that changes nothing. Only the bits are written.
pub fn tally_flip<'a>(
    rows: &'a [i32],
    cols: &'a [i32],
    orientations: &'a [u8],
    bits: &'a mut [u8],
    confidences: &'a [f32],
    tally: Tally,
    position: u32,
    tables: Tables,
) -> TallyAnswer
    ensures { FlipDone
        (edges rows.now cols.now orientations.now bits.old confidences.now)
        tally position (board_of tables.entry) result
        (edges rows.now cols.now orientations.now bits.new confidences.now) }
{
    let edges = Edges {
        rows,
        cols,
        orientations,
        bits,
    };
    let list = List { edges, confidences };
    let hit = tally_checks::judge_named(list, tally, position, tables)?;
    let i = position as usize;
    let orientation = orientations[i];
    bits[i] = 1 - bits[i];
    let without = tally::without_edge(tally, orientation, hit);
    Ok(tally::with_edge(without, orientation, !hit))
}
