// How an edit of a list is judged, before anything is written: refused by the first number of the request's order, or taken, with whether its edge is a hit.
#![tactic(auto)]

ghost use Rattle.std.specs.Prelude.{◌≡◌, false, length};
ghost use Rattle.board.specs.Hits.{edges, edge_hit};
ghost use Rattle.tally_checks.specs.Judged.{record_bad, record_found, full, moved_to, judged_edge, judged_missing, judged_there, judged_add, judged_named};
ghost use Rattle.board.specs.Given.{board_of, list_of};

use answer::Square;
use board::edge::Edge;
use board::list::{Edges, List};
use board::pattern::Tables;
use refusals::{Admission, EdgePlace, ListName, Refusal};
use tally::{Judged, Tally};

// How many edges a list may have that one more is added to.
const MAX_EDGES: u32 = 8192;

// Whether a record is longer than the slices, or its hits and misses do not add up to its length.
fn record_bad(n: usize, tally: Tally) -> bool
    ensures { result ≡ record_bad n tally }
{
    if n < tally.edges as usize {
        return true;
    }
    let horizontal = tally.horizontal_hits as u64 + tally.horizontal_misses as u64;
    let vertical = tally.vertical_hits as u64 + tally.vertical_misses as u64;
    horizontal + vertical != tally.edges as u64
}

// Numbers 2 and 24 of the slices and the record.
fn record_admission(list: List, tally: Tally) -> Admission
    ensures { result ≡ record_found (list_of list.entry) tally }
{
    if checks::check::lengths_differ(list) {
        return Err(refusals::numbered(refusals::LENGTHS_DIFFER));
    }
    findings::refused_if(record_bad(list.edges.rows.len(), tally), tally::BAD_RECORD)
}

// Whether nothing can be added: the slices are full, or the list has 8,192 edges or more.
fn is_full(n: usize, edges: u32) -> bool
    ensures { result ≡ full n edges }
{
    if n <= edges as usize {
        return true;
    }
    MAX_EDGES <= edges
}

// The refusal of a list with one edge alone: what is about the edge is at the edge's own position.
fn moved(number: u32, place: Option<EdgePlace>, position: u32) -> Refusal
    ensures { result ≡ moved_to position number place }
{
    match place {
        None => refusals::numbered(number),
        Some(at) => refusals::edge_refusal(number, ListName::Only, position),
    }
}

// One edge at a placing, judged as match statistics judge the list with this edge alone: numbers 4, 16, 17, 5 at its position, and 7 to 9.
fn judge_edge(edge: Edge, confidence: f32, position: u32, square: Square, tables: Tables) -> Judged
    ensures { result ≡ judged_edge edge confidence position square (board_of tables.entry) }
{
    let rows = [edge.row];
    let cols = [edge.col];
    let orientations = [edge.orientation];
    let bits = [edge.bit];
    let confidences = [confidence];
    let edges = Edges {
        rows: &rows,
        cols: &cols,
        orientations: &orientations,
        bits: &bits,
    };
    let list = List {
        edges,
        confidences: &confidences,
    };
    let answer = stats::stats::match_stats(list, square, tables);
    match answer {
        Err(refusal) => {
            let place = refusal.place;
            Err(moved(refusal.number, place, position))
        }
        Ok(counted) => Ok(counted.hits == 1),
    }
}

// No edge at the position: numbers 7 to 9 of the placing, and then 18.
fn judge_missing(position: u32, square: Square, tables: Tables) -> Judged
    ensures { result ≡ judged_missing square (board_of tables.entry) }
{
    let good = Edge {
        row: 0,
        col: 0,
        orientation: 0,
        bit: 0,
    };
    let judged = judge_edge(good, 0.0, position, square, tables);
    match judged {
        Err(refusal) => Err(refusal),
        Ok(hit) => Err(refusals::numbered(tally::NO_SUCH_EDGE)),
    }
}

// The edge at a position: its numbers and those of the placing, and then 24 where the record has no such hit or miss to give up.
fn judge_there(edge: Edge, confidence: f32, position: u32, tally: Tally, tables: Tables) -> Judged
    ensures { result ≡ judged_there edge confidence position tally (board_of tables.entry) }
{
    let hit = judge_edge(edge, confidence, position, tally.square, tables)?;
    if tally::count_of(tally, edge.orientation, hit) == 0 {
        return Err(refusals::numbered(tally::BAD_RECORD));
    }
    Ok(hit)
}

// An edge to be added to a list with its record: 2, 24, 3, then 4, 16, 17, 5 at the list's length, and 7 to 9.
pub fn judge_add(list: List, tally: Tally, edge: Edge, confidence: f32, tables: Tables) -> Judged
    ensures { result ≡ judged_add
        (list_of list.entry)
        tally edge confidence (board_of tables.entry) }
{
    record_admission(list, tally)?;
    if is_full(list.edges.rows.len(), tally.edges) {
        return Err(refusals::numbered(refusals::LIST_SIZE));
    }
    judge_edge(edge, confidence, tally.edges, tally.square, tables)
}

// An edge of a list to be removed or flipped, with the list's record: 2, 24, then 4, 16, 17, 5 of the edge if it exists, 7 to 9, 18, and 24 again.
pub fn judge_named(list: List, tally: Tally, position: u32, tables: Tables) -> Judged
    ensures { result ≡ judged_named
        (list_of list.entry)
        tally position (board_of tables.entry) }
{
    record_admission(list, tally)?;
    if tally.edges <= position {
        return judge_missing(position, tally.square, tables);
    }
    let i = position as usize;
    let edge = list.edges.edge_at(i);
    judge_there(edge, list.confidences[i], position, tally, tables)
}
