// Groups: the edges of one side that share long residue, short residue and bit. A group's number is long · 6 + short · 2 + bit.
ghost use Rattle.std.specs.Prelude.{◌≡◌, ◌+◌, ◌*◌, ◌<◌, ◌≤◌, length, nat_abs};
ghost use Rattle.laws.specs.Modulus.{ModulusOk};
ghost use Rattle.board.specs.Transform.{matrix_of, lookup_of};
ghost use Rattle.board.specs.Domain.{EdgeOk};
ghost use Rattle.groups.specs.Groups.{group, place_of};
ghost use Rattle.groups.specs.Fill.{FillReady, Filled};
ghost use Rattle.board.specs.Given.{list_of};

use board::edge::Edge;
use board::list::List;
use laws::{Modulus, Periods};

// The group of an edge by its long and short coordinate and its bit.
fn group_of(long: i32, short: i32, bit: u8, period: Modulus) -> u32
    requires modulus_ok { ModulusOk period × (bit < 2) }
    requires long_bound { (nat_abs long ≤ 2000002) × (nat_abs short ≤ 2000002) }
    ensures { (result ≡ group period.n long short bit) × (result < period.n * 6) }
{
    let three = laws::modulus_of(3);
    laws::residue(long, period) * 6 + laws::residue(short, three) * 2 + bit as u32
}

// Where an edge's group stands when the groups of both sides stand in one row, the horizontal ones first. The matrix of transform t and the periods, as
// moduli h and v, come from outside, since the same serve all edges.
pub fn group_place(edge: Edge, t: u8, matrix: [[i32; 2]; 2], h: Modulus, v: Modulus) -> u32
    requires edge_ok { EdgeOk edge t }
    requires modulus_ok { ModulusOk h × ModulusOk v × (matrix ≡ matrix_of t) }
    ensures { (result ≡ place_of h.n v.n (lookup_of t edge.row edge.col edge.orientation) edge.bit) × (result < (h.n + v.n) * 6) }
{
    let bit = edge.bit;
    let l = lookup::transform_edge_lookup(t, matrix, edge);
    let r = l.row;
    let c = l.col;
    if l.orientation == 0 {
        group_of(r, c, bit, h)
    } else {
        h.n * 6 + group_of(c, r, bit, v)
    }
}

// Adds each edge to its group, in list order: one to the count, its confidence to the weight. The groups stand from `base` on.
pub fn fill_groups(
    list: List,
    t: u8,
    periods: Periods,
    base: usize,
    counts: &mut [u32],
    weights: &mut [f32],
)
    requires { FillReady periods.h periods.v (list_of list) t base counts.old weights.old }
    ensures { Filled periods.h periods.v (list_of list.entry) t base (length list.entry.edges.rows.now) counts.old counts.new weights.old weights.new }
{
    let matrix = lookup::matrix_of(t);
    let h = laws::modulus_of(periods.h as u32);
    let v = laws::modulus_of(periods.v as u32);
    for i in 0..list.edges.rows.len() {
        let edge = list.edges.edge_at(i);
        let p = group_place(edge, t, matrix, h, v);
        let at = base + p as usize;
        counts[at] += 1;
        weights[at] += list.confidences[i];
    }
}
