// The eight transforms, and the lookup of an edge under one of them.
#![tactic(auto)]

ghost use Rattle.std.specs.Prelude.{◌≡◌, ◌<◌, ◌≤◌, nat_abs};
ghost use Rattle.board.specs.Transform.{matrix_of, mat, mapped, lookup_of_ends, lookup_of};

use board::edge::{Edge, EdgeLookup};

// The matrices by transform number: row 0 gives the new column, row 1 the new row, of (column, row).
const TRANSFORMS: [[[i32; 2]; 2]; 8] = [
    [[1, 0], [0, 1]],
    [[0, -1], [1, 0]],
    [[-1, 0], [0, -1]],
    [[0, 1], [-1, 0]],
    [[-1, 0], [0, 1]],
    [[0, 1], [1, 0]],
    [[1, 0], [0, -1]],
    [[0, -1], [-1, 0]],
];

// The matrix of transform t. The compiler copies the whole table for each reading, so it is read once for a list, before the loop over the edges.
pub fn matrix_of(t: u8) -> [[i32; 2]; 2]
    requires { t < 8 }
    ensures { result ≡ matrix_of t }
{
    TRANSFORMS[t as usize]
}

// One entry of the matrix of transform t. Here and below the promise speaks of t, and the matrix is read.
fn entry(t: u8, matrix: [[i32; 2]; 2], i: usize, j: usize) -> i32
    requires { (matrix ≡ matrix_of t) × (i < 2) × (j < 2) }
    ensures { result ≡ mat t i j }
{
    matrix[i][j]
}

// The column (i = 0) or row (i = 1) that transform t maps (col, row) to.
fn apply(t: u8, matrix: [[i32; 2]; 2], i: usize, col: i32, row: i32) -> i32
    requires { (matrix ≡ matrix_of t) × (i < 2) × (nat_abs col ≤ 1000000) × (nat_abs row ≤ 1000000) }
    ensures { result ≡ mapped t i col row }
{
    entry(t, matrix, i, 0) * col + entry(t, matrix, i, 1) * row
}

// The lookup of an edge whose ends were mapped to (c, r) and (d, s).
fn lookup_of_ends(c: i32, r: i32, d: i32, s: i32) -> EdgeLookup
    requires { (nat_abs c ≤ 2000001) × (nat_abs r ≤ 2000001) × (nat_abs d ≤ 2000001) × (nat_abs s ≤ 2000001) }
    ensures { result ≡ lookup_of_ends c r d s }
{
    if r == s {
        let a = if c < d { c } else { d };
        EdgeLookup {
            orientation: 0,
            row: r - 1,
            col: a,
        }
    } else if r < s {
        EdgeLookup {
            orientation: 1,
            row: r,
            col: c - 1,
        }
    } else {
        EdgeLookup {
            orientation: 1,
            row: s,
            col: d - 1,
        }
    }
}

// Where an edge is looked up under transform t, whose matrix is given. Its first end is mapped to (c, r). The other lies a column or a row further, so it is
// mapped a column of the matrix further.
pub fn transform_edge_lookup(t: u8, matrix: [[i32; 2]; 2], edge: Edge) -> EdgeLookup
    requires { (matrix ≡ matrix_of t) × (nat_abs edge.row ≤ 1000000) × (nat_abs edge.col ≤ 1000000) }
    ensures { result ≡ lookup_of t edge.row edge.col edge.orientation }
{
    let row = edge.row;
    let col = edge.col;
    let c = apply(t, matrix, 0, col, row);
    let r = apply(t, matrix, 1, col, row);
    if edge.orientation == 0 {
        lookup_of_ends(c, r, c + entry(t, matrix, 0, 0), r + entry(t, matrix, 1, 0))
    } else {
        lookup_of_ends(c, r, c + entry(t, matrix, 0, 1), r + entry(t, matrix, 1, 1))
    }
}
