// The likelihood sums of one transform, in lent room: as the counts, with two rows of groups, match then mismatch, and no skipping of empty groups,
// since adding 0 to a whole number changes nothing.
ghost use Rattle.std.specs.Prelude.{◌≡◌, [], ◌<◌, ◌^◌, length, get_or, set, pos, nat_abs, ◌+ℤ◌};
ghost use Rattle.sums.specs.Sums.{likelihoods};
ghost use Rattle.sums.specs.SumParts.{SumsFillReady, SumsFilled, RunReadyZ, RunCreditedZ, FamilyReadyZ, FamilyCreditedZ, SideReadyZ, SideBuiltZ};
ghost use Rattle.sums.specs.SumsRoom.{SumsReady, SumsBuilt};
ghost use Rattle.board.specs.Given.{board_of, edges_of};
ghost use Rattle.likelihood.specs.Given.{likelihoods_of};

use board::list::Edges;
use board::pattern::Tables;
use laws::Periods;
use likelihood::Likelihoods;
use room::Side;

// Adds x to place k.
fn add_at(sums: &mut [i64], k: usize, x: i64)
    requires { (k < length sums.old) × (nat_abs (get_or sums.old k (pos 0) +ℤ x) < 2 ^ 63) }
    ensures { sums.new ≡ set sums.old k (get_or sums.old k (pos 0) +ℤ x) }
{
    sums[k] = sums[k] + x;
}

// Adds each edge's quantised likelihoods to its groups: the match to the row of groups from `base` on, the mismatch to the next row.
fn fill_sums(
    edges: Edges,
    likelihoods: Likelihoods,
    t: u8,
    periods: Periods,
    base: usize,
    sums: &mut [i64],
)
    requires { SumsFillReady periods.h periods.v (edges_of edges) (likelihoods_of likelihoods) t base sums.old }
    ensures { SumsFilled periods.h periods.v (edges_of edges.entry) (likelihoods_of likelihoods.entry) t base (length edges.entry.rows.now) sums.old sums.new }
{
    let row = room::row_of_groups(periods);
    let matrix = lookup::matrix_of(t);
    let h = laws::modulus_of(periods.h as u32);
    let v = laws::modulus_of(periods.v as u32);
    for i in 0..edges.rows.len() {
        let edge = edges.edge_at(i);
        let p = groups::groups::group_place(edge, t, matrix, h, v);
        let at = base + p as usize;
        let m = likelihood::quantize_ll(likelihoods.matches[i]);
        add_at(sums, at, m);
        let u = likelihood::quantize_ll(likelihoods.mismatches[i]);
        add_at(sums, at + row, u);
    }
}

// Credits a run of n classes, as `credit_run` does counts.
fn credit_sum_run(
    sums: &mut [i64],
    terms: [[i64; 3]; 8],
    part: &[u8],
    n: usize,
    at: usize,
    stride: usize,
    across: usize,
)
    requires { RunReadyZ terms part.now n at stride across sums.old }
    ensures { RunCreditedZ terms part.now n at stride across sums.old sums.new }
{
    for i in 0..n {
        let pattern = part[i] as usize;
        let row = terms[pattern];
        let a = row[0];
        let b = row[1];
        let c = row[2];
        let k = at + i * stride;
        add_at(sums, k, a);
        add_at(sums, k + across, b);
        add_at(sums, k + 2 * across, c);
    }
}

// Folds one family of a side and credits it to the side's cells, in two runs, as `credit_family` does counts.
fn credit_sum_held(tables: Tables, side: Side, also: usize, family: usize, sums: &mut [i64])
    requires { FamilyReadyZ (board_of tables) side also family sums.old }
    ensures { FamilyCreditedZ (board_of tables.entry) side also family sums.old sums.new }
{
    let orientation = side.orientation;
    let stride = side.stride;
    let across = side.across;
    let cells = side.cells;
    let terms = sum_terms::fold_sums(sums, side.groups + family * 6, also + family * 6);
    let part = tables.patterns_from(orientation, family);
    let n = part.len();
    credit_sum_run(sums, terms, part, n, cells, stride, across);
    let whole = tables.patterns_from(orientation, 0);
    credit_sum_run(
        sums,
        terms,
        whole,
        family,
        cells + n * stride,
        stride,
        across,
    );
}

// Credits one family of a side. A family whose twelve sums are all 0 stores nothing.
fn credit_sum_family(tables: Tables, side: Side, also: usize, family: usize, sums: &mut [i64])
    requires { FamilyReadyZ (board_of tables) side also family sums.old }
    ensures { FamilyCreditedZ (board_of tables.entry) side also family sums.old sums.new }
{
    if sum_terms::some_sum(sums, side.groups + family * 6, also + family * 6) {
        credit_sum_held(tables, side, also, family, sums);
    }
}

// Adds all families of one side to its cells. The cells were cleared, and the groups stand.
fn build_sum_side(tables: Tables, side: Side, also: usize, sums: &mut [i64])
    requires { SideReadyZ (board_of tables) side also sums.old }
    ensures { SideBuiltZ (board_of tables.entry) side also sums.old sums.new }
{
    let period = tables.patterns_from(side.orientation, 0).len();
    for family in 0..period {
        credit_sum_family(tables, side, also, family, sums);
    }
}

// The likelihood sums of one transform: the used room is cleared, the groups are filled, then the horizontal cells are built, then the vertical ones.
// A hit and a miss add their likelihoods, whatever the confidences: the list is taken without them.
pub fn build_sums(edges: Edges, likelihoods: Likelihoods, t: u8, tables: Tables, sums: &mut [i64])
    requires { SumsReady (board_of tables) (edges_of edges) (likelihoods_of likelihoods) t sums.old }
    ensures { SumsBuilt (board_of tables.entry) (edges_of edges.entry) (likelihoods_of likelihoods.entry) t sums.old sums.new }
{
    let periods = Periods {
        h: tables.h.len(),
        v: tables.v.len(),
    };
    let end = room::used_by_sums(periods);
    clearing::clear(sums, end);
    let horizontal = room::horizontal(periods);
    fill_sums(edges, likelihoods, t, periods, horizontal.groups, sums);
    let row = room::row_of_groups(periods);
    build_sum_side(tables, horizontal, horizontal.groups + row, sums);
    let vertical = room::vertical(periods);
    build_sum_side(tables, vertical, vertical.groups + row, sums);
}
