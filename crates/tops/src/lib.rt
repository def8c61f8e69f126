// The best class of a side and the second best, and the best of each short residue: each class is counted, one long residue after the other, and only what is best so far is kept.
#![tactic(auto)]

ghost use Rattle.std.specs.Prelude.{◌≡◌, false, [], ◌*◌, ◌≤◌, ◌<◌};
ghost use Rattle.board.specs.Sides.{period_of};
ghost use Rattle.classes.specs.Classes.{class_hits, CountReady};
ghost use Rattle.tops.specs.Tops.{pushed, pushed_three, top_to, raised, short_tops};
ghost use Rattle.board.specs.Given.{board_of, edges_of};

use board::list::Edges;
use board::pattern::Tables;
use classes::{Three, period_of};

// What one side comes to: the most hits of a class, the first class that has them, and the most hits of another class.
#[derive(Clone, Copy)]
pub struct Top {
    pub best: u32,
    pub at: usize,
    pub next: u32,
}

// One class more, with its hits.
fn push(top: Top, i: usize, hits: u32) -> Top
    ensures { result ≡ pushed top i hits }
{
    if top.best < hits {
        return Top {
            best: hits,
            at: i,
            next: top.best,
        };
    }
    if top.next < hits {
        return Top {
            best: top.best,
            at: top.at,
            next: hits,
        };
    }
    top
}

// The three classes of one long residue more.
fn push_three(top: Top, long: usize, x: Three) -> Top
    requires { long ≤ 500 }
    ensures { result ≡ pushed_three top long x }
{
    let i = long * 3;
    let a = push(top, i, x.a);
    let b = push(a, i + 1, x.b);
    push(b, i + 2, x.c)
}

// The best and the second-best class of one side under the transform t.
pub fn side_top(edges: Edges, t: u8, horizontal: bool, tables: Tables) -> Top
    requires { CountReady (board_of tables) (edges_of edges) t }
    ensures { result ≡ top_to (class_hits (board_of tables.entry) (edges_of edges.entry) t horizontal) (period_of (board_of tables.entry) horizontal * 3) }
{
    let period = period_of(tables, horizontal);
    let mut top = Top {
        best: 0,
        at: 0,
        next: 0,
    };
    let mut long: usize = 0;
    while long < period {
        let x = classes::long_hits(edges, t, horizontal, long as u32, tables);
        top = push_three(top, long, x);
        long += 1;
    }
    top
}

// The larger of two numbers.
pub fn larger(a: u32, b: u32) -> u32
    ensures { result ≡ Rattle.tops.specs.Tops.larger a b }
{
    if a < b {
        return b;
    }
    a
}

// One long residue more: of each short residue, the larger.
fn raise(top: Three, x: Three) -> Three
    ensures { result ≡ raised top x }
{
    let a = larger(top.a, x.a);
    let b = larger(top.b, x.b);
    let c = larger(top.c, x.c);
    Three { a, b, c }
}

// Of each short residue of the vertical side, the most hits of a class that has it.
pub fn short_tops(edges: Edges, t: u8, tables: Tables) -> Three
    requires { CountReady (board_of tables) (edges_of edges) t }
    ensures { result ≡ short_tops (board_of tables.entry) (edges_of edges.entry) t (period_of (board_of tables.entry) false) }
{
    let period = tables.v.len();
    let mut top = Three { a: 0, b: 0, c: 0 };
    let mut long: usize = 0;
    while long < period {
        let x = classes::long_hits(edges, t, false, long as u32, tables);
        top = raise(top, x);
        long += 1;
    }
    top
}
