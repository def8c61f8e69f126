// An edge added at the end of a list, and the list's record kept with it.
#![tactic(auto)]

ghost use Rattle.std.specs.Prelude.{◌≡◌};
ghost use Rattle.board.specs.Given.{board_of};
ghost use Rattle.board.specs.Hits.{edges};
ghost use Rattle.tally_add.specs.Added.{AddDone};

use board::edge::Edge;
use board::list::{Edges, List};
use board::pattern::Tables;
use tally::{Tally, TallyAnswer};

// Adds an edge, by value, to the list in the front of five lent slices: the new record, or a refusal that changes nothing. The edge's position is the record's length.
pub fn tally_add<'a>(
    rows: &'a mut [i32],
    cols: &'a mut [i32],
    orientations: &'a mut [u8],
    bits: &'a mut [u8],
    confidences: &'a mut [f32],
    tally: Tally,
    edge: Edge,
    confidence: f32,
    tables: Tables,
) -> TallyAnswer
    ensures { AddDone
        (edges rows.old cols.old orientations.old bits.old confidences.old)
        tally edge confidence (board_of tables.entry) result
        (edges rows.new cols.new orientations.new bits.new confidences.new) }
{
    let edges = Edges {
        rows,
        cols,
        orientations,
        bits,
    };
    let list = List { edges, confidences };
    let hit = tally_checks::judge_add(list, tally, edge, confidence, tables)?;
    let i = tally.edges as usize;
    let row = edge.row;
    let col = edge.col;
    rows[i] = row;
    cols[i] = col;
    orientations[i] = edge.orientation;
    bits[i] = edge.bit;
    confidences[i] = confidence;
    Ok(tally::with_edge(tally, edge.orientation, hit))
}
