// The row-major first origin of a transform that has a given number of hits: first its row, by the most hits that a row can have, and then its column.
#![tactic(auto)]

ghost use Rattle.std.specs.Prelude.{◌≡◌, true, false, [], ◌*◌, ◌%◌, ◌≤◌, ◌<◌, length};
ghost use Rattle.classes.specs.Classes.{three_of, CountReady};
ghost use Rattle.tops.specs.Tops.{short_tops};
ghost use Rattle.firsts.specs.Firsts.{pick_of, most_of, first_col, first_key};
ghost use Rattle.board.specs.Given.{board_of, edges_of};

use board::list::Edges;
use board::pattern::Tables;
use classes::Three;
use tops::larger;

// One of three numbers, by short residue.
fn pick(x: Three, i: usize) -> u32
    ensures { result ≡ pick_of x i }
{
    if i == 0 {
        return x.a;
    }
    if i == 1 {
        return x.b;
    }
    x.c
}

// The largest of three numbers.
fn most_of(x: Three) -> u32
    ensures { result ≡ most_of x }
{
    larger(larger(x.a, x.b), x.c)
}

// The first column of a row that has the wanted hits, or the number of columns. The hits of the row's three horizontal classes are given.
fn first_col(edges: Edges, t: u8, tables: Tables, row: usize, across: Three, wanted: u32) -> usize
    requires count_ready { CountReady (board_of tables) (edges_of edges) t }
    requires across_value { across ≡ three_of (board_of tables) (edges_of edges) t true (row % length tables.h.now) }
    ensures { result ≡ first_col (board_of tables.entry) (edges_of edges.entry) t wanted row }
{
    let period = tables.v.len();
    let mut col: usize = 0;
    while col < 3 * period {
        let long = (col % period) as u32;
        let down = classes::long_hits(edges, t, false, long, tables);
        if pick(across, col % 3) + pick(down, row % 3) == wanted {
            return col;
        }
        col += 1;
    }
    col
}

// The same of any row: where its best classes together have fewer hits than wanted, no column is looked at.
fn row_first(edges: Edges, t: u8, tables: Tables, row: usize, tops: Three, wanted: u32) -> usize
    requires count_ready { CountReady (board_of tables) (edges_of edges) t }
    requires tops_value { tops ≡ short_tops (board_of tables) (edges_of edges) t (length tables.v.now) }
    ensures { result ≡ first_col (board_of tables.entry) (edges_of edges.entry) t wanted row }
{
    let long = (row % tables.h.len()) as u32;
    let across = classes::long_hits(edges, t, true, long, tables);
    if most_of(across) + pick(tops, row % 3) < wanted {
        return 3 * tables.v.len();
    }
    first_col(edges, t, tables, row, across, wanted)
}

// The row-major first origin with the wanted hits under the transform t, as its key: row · columns + column. Where there is none, the number of origins.
pub fn first_key(edges: Edges, t: u8, tables: Tables, wanted: u32) -> usize
    requires { CountReady (board_of tables) (edges_of edges) t }
    ensures { result ≡ first_key (board_of tables.entry) (edges_of edges.entry) t wanted }
{
    let tops = tops::short_tops(edges, t, tables);
    let wide = 3 * tables.v.len();
    let mut row: usize = 0;
    while row < 3 * tables.h.len() {
        let col = row_first(edges, t, tables, row, tops, wanted);
        if col < wide {
            return row * wide + col;
        }
        row += 1;
    }
    row * wide
}
