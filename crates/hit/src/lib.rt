// The bit that the board predicts of an edge, and whether the edge is a hit.
#![tactic(auto)]

ghost use Rattle.std.specs.Prelude.{◌≡◌, [], ◌<◌, ◌≤◌, length};
ghost use Rattle.board.specs.Transform.{matrix_of};
ghost use Rattle.board.specs.Hits.{edge_at, predicted, edge_hit};
ghost use Rattle.board.specs.Domain.{EdgeOk, ColumnsOk, BoardOk};
ghost use Rattle.board.specs.Given.{board_of, edges_of};

use answer::Square;
use board::edge::{Edge, EdgeLookup};
use board::list::Edges;
use board::pattern::{Tables, pattern_bit};

// The bit that the board predicts of an edge that was looked up, at the origin (r, c).
fn predicted_bit(tables: Tables, l: EdgeLookup, r: u32, c: u32) -> u8
    requires board_ok { BoardOk (board_of tables) }
    requires r_bound { (r ≤ 1500) × (c ≤ 1500) }
    ensures { result ≡ predicted (board_of tables.entry) l r c }
{
    let row = l.row;
    let col = l.col;
    let patterns = tables.patterns_from(l.orientation, 0);
    let period = patterns.len() as u32;
    if l.orientation == 0 {
        let at = laws::class_at(row, r, period) as usize;
        pattern_bit(patterns[at], laws::class_at(col, c, 3))
    } else {
        let at = laws::class_at(col, c, period) as usize;
        pattern_bit(patterns[at], laws::class_at(row, r, 3))
    }
}

// Whether an edge is a hit at a square, that is under its transform, whose matrix is given, at its origin: the edge's bit is the predicted one.
pub fn is_hit(tables: Tables, edge: Edge, square: Square, matrix: [[i32; 2]; 2]) -> bool
    requires board_ok { BoardOk (board_of tables) }
    requires edge_ok { EdgeOk edge square.transform × (matrix ≡ matrix_of square.transform) }
    requires row_bound { (square.row ≤ 1500) × (square.col ≤ 1500) }
    ensures { result ≡ edge_hit (board_of tables.entry) edge square }
{
    let l = lookup::transform_edge_lookup(square.transform, matrix, edge);
    predicted_bit(tables, l, square.row, square.col) == edge.bit
}

// Whether edge i of a list, which has a column for each field, is a hit at a square, whose transform's matrix is given.
pub fn hit_at(edges: Edges, i: usize, square: Square, matrix: [[i32; 2]; 2], tables: Tables) -> bool
    requires columns_ok { ColumnsOk edges.rows.now edges.cols.now edges.orientations.now edges.bits.now × (i < length edges.rows.now) }
    requires board_ok { BoardOk (board_of tables) }
    requires transform_bound { (square.transform < 8) × (matrix ≡ matrix_of square.transform) }
    requires row_bound { (square.row ≤ 1500) × (square.col ≤ 1500) }
    ensures { result ≡ edge_hit (board_of tables.entry) (edge_at (edges_of edges.entry) i) square }
{
    let edge = edges.edge_at(i);
    is_hit(tables, edge, square, matrix)
}
