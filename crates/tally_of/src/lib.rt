// The record of a list counted from nothing, so that edits can begin.
#![tactic(auto)]

ghost use Rattle.std.specs.Prelude.{◌≡◌};
ghost use Rattle.board.specs.Hits.{size};
ghost use Rattle.admission.specs.Accepted.{StatsAccepted};
ghost use Rattle.tally.specs.Counted.{tally_of};
ghost use Rattle.tally_of.specs.Begun.{Sides, counted_all, tally_answer};
ghost use Rattle.board.specs.Given.{board_of, list_of};

use answer::Square;
use board::list::{Edges, List};
use board::pattern::Tables;
use tally::{Tally, TallyAnswer};

// How many edges a record may be counted of.
const MAX_EDGES: u32 = 8192;

// The record of all edges of a list that was accepted.
fn count_edges(list: List, square: Square, tables: Tables) -> Tally
    requires stats_accepted { StatsAccepted
        (list_of list)
        square.transform square.row square.col (board_of tables) }
    requires sides { Sides list.edges.orientations.now }
    ensures { result ≡ tally_of (board_of tables.entry)
        (list_of list.entry)
        square (size (list_of list.entry)) }
{
    let matrix = lookup::matrix_of(square.transform);
    let mut tally = Tally {
        square,
        edges: 0,
        horizontal_hits: 0,
        horizontal_misses: 0,
        vertical_hits: 0,
        vertical_misses: 0,
    };
    for i in 0..list.edges.rows.len() {
        let hit = hit::hit_at(list.edges, i, square, matrix, tables);
        tally = tally::with_edge(tally, list.edges.orientations[i], hit);
    }
    tally
}

// The record of all edges of a list, or match statistics' refusal of it.
fn count_all(list: List, square: Square, tables: Tables) -> TallyAnswer
    ensures { result ≡ counted_all
        (list_of list.entry)
        square (board_of tables.entry) }
{
    stats_admission::stats_admission(list, square, tables)?;
    Ok(count_edges(list, square, tables))
}

// The record of the first edges of five lent slices at a placing: 2, 24 where there are not so many, 3 over 8,192, and then match statistics' numbers.
pub fn tally_of(list: List, count: u32, square: Square, tables: Tables) -> TallyAnswer
    ensures { result ≡ tally_answer
        (list_of list.entry)
        count square (board_of tables.entry) }
{
    if checks::check::lengths_differ(list) {
        return Err(refusals::numbered(refusals::LENGTHS_DIFFER));
    }
    let n = count as usize;
    if list.edges.rows.len() < n {
        return Err(refusals::numbered(tally::BAD_RECORD));
    }
    if MAX_EDGES < count {
        return Err(refusals::numbered(refusals::LIST_SIZE));
    }
    let edges = Edges {
        rows: slices::part::front(list.edges.rows, n),
        cols: slices::part::front(list.edges.cols, n),
        orientations: slices::part::front(list.edges.orientations, n),
        bits: slices::part::front(list.edges.bits, n),
    };
    let confidences = slices::part::front(list.confidences, n);
    count_all(List { edges, confidences }, square, tables)
}
