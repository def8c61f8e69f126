// The hits of a class of origins, counted edge by edge without any table. A class is a long residue with a short one; the three of one long residue are counted together.
#![tactic(auto)]

ghost use Rattle.std.specs.Prelude.{◌≡◌, [], not, cond, ◌+◌, ◌%◌, ◌≤◌, ◌<◌, pos, nat_abs, ◌+ℤ◌, eqb, length};
ghost use Rattle.laws.specs.Words.{put};
ghost use Rattle.laws.specs.Modulus.{modulus_of};
ghost use Rattle.board.specs.Transform.{matrix_of};
ghost use Rattle.board.specs.Hits.{pattern_bit};
ghost use Rattle.board.specs.Domain.{EdgeOk, BoardOk, Patterns};
ghost use Rattle.classes.specs.Classes.{added_three, straight, edge_added, three_of, CountReady};
ghost use Rattle.board.specs.Sides.{period_of};
ghost use Rattle.board.specs.Given.{board_of, edges_of};

use board::edge::Edge;
use board::list::Edges;
use board::pattern::{Tables, pattern_bit};
use laws::Modulus;

// The hits of the three classes of one long residue, by short residue 0, 1 and 2.
#[derive(Clone, Copy)]
pub struct Three {
    pub a: u32,
    pub b: u32,
    pub c: u32,
}

// One more where it is a hit.
fn bump(n: u32, hit: bool) -> u32
    requires { n < 8192 }
    ensures { result ≡ put ◌+◌ hit n 1 }
{
    if hit {
        return n + 1;
    }
    n
}

// The remainder by n of a number below 2 · n, by comparing.
fn wrapped(x: u32, n: u32) -> u32
    requires { (x < n + n) × (n ≤ 500) }
    ensures { (result ≡ x % n) × (result < n) }
{
    if x < n {
        return x;
    }
    x - n
}

// One edge of a side more, by its long and short coordinate and its bit, held to the three bits of its pattern. The table's length comes as a modulus, since the same serves all edges.
fn add_three(
    patterns: &[u8],
    period: Modulus,
    sum: Three,
    x: i32,
    y: i32,
    long: u32,
    bit: u8,
) -> Three
    requires patterns { Patterns patterns.now × (period ≡ modulus_of (length patterns.now)) × (long < length patterns.now) }
    requires x_bound { (nat_abs x ≤ 2000002) × (nat_abs y ≤ 2000002) }
    requires a_bound { (sum.a < 8192) × (sum.b < 8192) × (sum.c < 8192) }
    ensures { result ≡ added_three (λ k. eqb (pattern_bit patterns.now (x +ℤ pos long) (y +ℤ pos k)) bit) sum }
{
    let at = wrapped(laws::residue(x, period) + long, period.n) as usize;
    let p = patterns[at];
    let three = laws::modulus_of(3);
    let i = laws::residue(y, three);
    let a = pattern_bit(p, i) == bit;
    let b = pattern_bit(p, wrapped(i + 1, 3)) == bit;
    let c = pattern_bit(p, wrapped(i + 2, 3)) == bit;
    Three {
        a: bump(sum.a, a),
        b: bump(sum.b, b),
        c: bump(sum.c, c),
    }
}

// Whether the transform t, whose matrix is given, puts horizontal edges on the side that is asked for. Vertical edges then lie on the other side.
fn is_straight(t: u8, matrix: [[i32; 2]; 2], horizontal: bool) -> bool
    requires { matrix ≡ matrix_of t }
    ensures { result ≡ straight t horizontal }
{
    let turn = matrix[1][0];
    if horizontal {
        return turn == 0;
    }
    turn != 0
}

// Whether an edge of that orientation lies on the side.
fn is_on(orientation: u8, straight: bool) -> bool
    ensures { result ≡ cond (eqb orientation 0) straight (not straight) }
{
    if orientation == 0 {
        return straight;
    }
    !straight
}

// One edge more: it counts where the transform puts it on the side that is asked for, which its orientation tells before it is looked up.
fn count_edge(
    tables: Tables,
    period: Modulus,
    sum: Three,
    edge: Edge,
    t: u8,
    matrix: [[i32; 2]; 2],
    horizontal: bool,
    straight: bool,
    long: u32,
) -> Three
    requires board_ok { BoardOk (board_of tables) × (period ≡ modulus_of (period_of (board_of tables) horizontal)) }
    requires edge_ok { EdgeOk edge t × (matrix ≡ matrix_of t) × (straight ≡ Rattle.classes.specs.Classes.straight t horizontal) × (long < period_of (board_of tables) horizontal) }
    requires a_bound { (sum.a < 8192) × (sum.b < 8192) × (sum.c < 8192) }
    ensures { result ≡ edge_added (board_of tables.entry) t horizontal long edge sum }
{
    let bit = edge.bit;
    if is_on(edge.orientation, straight) {
        let l = lookup::transform_edge_lookup(t, matrix, edge);
        let row = l.row;
        let col = l.col;
        if horizontal {
            return add_three(tables.h, period, sum, row, col, long, bit);
        }
        return add_three(tables.v, period, sum, col, row, long, bit);
    }
    sum
}

// How many long residues a side has: the length of its pattern table.
pub fn period_of(tables: Tables, horizontal: bool) -> usize
    ensures { result ≡ period_of (board_of tables.entry) horizontal }
{
    if horizontal {
        return tables.h.len();
    }
    tables.v.len()
}

// The hits of the three classes of a long residue, on the horizontal or the vertical side, under the transform t.
pub fn long_hits(edges: Edges, t: u8, horizontal: bool, long: u32, tables: Tables) -> Three
    requires { CountReady (board_of tables) (edges_of edges) t × (long < period_of (board_of tables) horizontal) }
    ensures { result ≡ three_of (board_of tables.entry) (edges_of edges.entry) t horizontal long }
{
    let matrix = lookup::matrix_of(t);
    let straight = is_straight(t, matrix, horizontal);
    let period = laws::modulus_of(period_of(tables, horizontal) as u32);
    let mut sum = Three { a: 0, b: 0, c: 0 };
    for i in 0..edges.rows.len() {
        let edge = edges.edge_at(i);
        sum = count_edge(
            tables, period, sum, edge, t, matrix, horizontal, straight, long,
        );
    }
    sum
}
