// Whether one known placing of a list is within the error limit, read edge by edge only until that is certain.
#![tactic(auto)]

ghost use Rattle.std.specs.Prelude.{◌≡◌, not, ◌||◌, ◌≤◌, ◌<◌, ◌+◌, eqb, length};
ghost use Rattle.laws.specs.Words.{put};
ghost use Rattle.board.specs.Transform.{matrix_of};
ghost use Rattle.board.specs.Hits.{edges, size, hit};
ghost use Rattle.board.specs.Domain.{BoardOk};
ghost use Rattle.within_admission.specs.WithinAdmission.{fault_at, Columns, WithinAccepted};
ghost use Rattle.within.specs.Within.{allowed, certain, concluded, stop_of, judged_of, within_answer};
ghost use Rattle.board.specs.Given.{board_of, list_of};

use answer::Square;
use board::list::List;
use board::pattern::Tables;
use refusals::ListName;
use within_admission::NO_FAULT;
use within_answer::{LimitTest, WithinAnswer};

// Where a list is left: how many edges were read, and how many of them are hits.
#[derive(Clone, Copy)]
pub struct Stop {
    pub read: usize,
    pub hits: u32,
}

// Whether so many hits among so many edges are within the error limit, by match statistics' rate.
fn allowed(edges: u32, hits: u32, error_limit: f32) -> bool
    requires { (hits ≤ edges) × (edges ≤ 8192) }
    ensures { result ≡ allowed edges error_limit hits }
{
    stats::stats::rate(edges, hits) <= error_limit
}

// Whether the answer is certain after `read` of the edges: within the limit though every other edge be a miss, or beyond it though every other be a hit.
fn is_certain(edges: u32, read: u32, hits: u32, error_limit: f32) -> bool
    requires { (hits ≤ read) × (read ≤ edges) × (edges ≤ 8192) }
    ensures { result ≡ certain edges error_limit read hits }
{
    if allowed(edges, hits, error_limit) {
        return true;
    }
    !allowed(edges, hits + (edges - read), error_limit)
}

// The number by which edge i is refused, or 0.
fn fault_at(list: List, i: usize) -> u32
    requires { Columns (list_of list) × (i < length list.edges.rows.now) }
    ensures { result ≡ fault_at (list_of list.entry) i }
{
    let edge = list.edges.edge_at(i);
    within_admission::fault_of(edge, list.confidences[i])
}

// Whether reading stops before edge i, of which so many before it are hits: the answer is certain, or the edge is bad. The edge is looked at only where the answer is not certain.
fn stops(list: List, i: usize, hits: u32, error_limit: f32) -> bool
    requires columns { Columns (list_of list) × (i < length list.edges.rows.now) }
    requires hits_le_i { hits ≤ i }
    ensures { result ≡ (certain (length list.entry.edges.rows.now) error_limit i hits
        || not (eqb (fault_at (list_of list.entry) i) 0)) }
{
    let edges = list.edges.rows.len() as u32;
    if is_certain(edges, i as u32, hits, error_limit) {
        return true;
    }
    fault_at(list, i) != NO_FAULT
}

// Whether edge i, which has no fault, is a hit at a square, whose transform's matrix is given.
fn hit_here(list: List, i: usize, square: Square, matrix: [[i32; 2]; 2], tables: Tables) -> bool
    requires columns { Columns (list_of list) × (i < length list.edges.rows.now) }
    requires i_value { fault_at (list_of list) i ≡ 0 }
    requires board_ok { BoardOk (board_of tables) }
    requires transform_bound { (square.transform < 8) × (matrix ≡ matrix_of square.transform) }
    requires row_bound { (square.row ≤ 1500) × (square.col ≤ 1500) }
    ensures { result ≡ hit (board_of tables.entry)
        (list_of list.entry)
        square.transform square.row square.col i }
{
    let edge = list.edges.edge_at(i);
    hit::is_hit(tables, edge, square, matrix)
}

// One hit more, where it is one.
fn counted(hits: u32, hit: bool) -> u32
    requires { hits ≤ 8192 }
    ensures { result ≡ put ◌+◌ hit hits 1 }
{
    if hit {
        return hits + 1;
    }
    hits
}

// Reads a list from its first edge until the answer is certain or an edge is bad: how many edges that was, and how many of them are hits.
fn walk(list: List, square: Square, tables: Tables, error_limit: f32) -> Stop
    requires { WithinAccepted
        (list_of list)
        square.transform square.row square.col (board_of tables) error_limit }
    ensures { result ≡ stop_of
        (list_of list.entry)
        square.transform square.row square.col (board_of tables.entry) error_limit }
{
    let matrix = lookup::matrix_of(square.transform);
    let mut hits = 0;
    let mut i = 0;
    while i < list.edges.rows.len() {
        if stops(list, i, hits, error_limit) {
            return Stop { read: i, hits };
        }
        let hit = hit_here(list, i, square, matrix, tables);
        hits = counted(hits, hit);
        i += 1;
    }
    Stop { read: i, hits }
}

// What a list comes to that was left at a stop: yes, no, or the bad edge there.
fn conclude(list: List, stop: Stop, error_limit: f32) -> WithinAnswer
    requires columns { Columns (list_of list) }
    requires hits_le_read { (stop.hits ≤ stop.read) × (stop.read ≤ length list.edges.rows.now) }
    ensures { result ≡ concluded
        (list_of list.entry)
        error_limit stop }
{
    let edges = list.edges.rows.len() as u32;
    let read = stop.read as u32;
    if allowed(edges, stop.hits, error_limit) {
        return Ok(LimitTest { within: true, read });
    }
    if allowed(edges, stop.hits + (edges - read), error_limit) {
        let number = fault_at(list, stop.read);
        return Err(refusals::edge_refusal(number, ListName::Only, read));
    }
    Ok(LimitTest {
        within: false,
        read,
    })
}

// Whether a list's rate at one known transform and origin is at most the error limit, for all inputs; and how many edges were read to know it.
pub fn within_limit(list: List, square: Square, tables: Tables, error_limit: f32) -> WithinAnswer
    ensures { result ≡ within_answer
        (list_of list.entry)
        square.transform square.row square.col (board_of tables.entry) error_limit }
{
    within_admission::within_admission(list, square, tables, error_limit)?;
    let stop = walk(list, square, tables, error_limit);
    conclude(list, stop, error_limit)
}
