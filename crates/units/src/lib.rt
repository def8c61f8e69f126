// The values of one transform, in room that the caller lends: groups, terms and cells as in `tables`, where an edge counts for its value. A cell holds hits and
// weight of its edges as one number, hits · 2^38 + weight, and the weight is exact: whole numbers of 2^-24, added without rounding.
#![tactic(auto)]

ghost use Rattle.std.specs.Prelude.{◌≡◌, ◌+◌, ◌^◌, ◌<◌, length, get_or, set};
ghost use Rattle.units.specs.Units.{UnitsReady, UnitsBuilt};
ghost use Rattle.units.specs.UnitParts.{UnitsFillReady, UnitsFilled, RunReadyU, RunCreditedU, FamilyReadyU, FamilyCreditedU, SideReadyU, SideBuiltU};
ghost use Rattle.board.specs.Given.{board_of, list_of};

use board::list::List;
use board::pattern::Tables;
use laws::Periods;
use room::Side;

// Adds x to place k.
fn add_at(units: &mut [u64], k: usize, x: u64)
    requires { (k < length units.old) × (get_or units.old k 0 + x < 2 ^ 64) }
    ensures { units.new ≡ set units.old k (get_or units.old k 0 + x) }
{
    units[k] += x;
}

// Adds each edge's value to its group. The groups stand from `base` on.
fn fill_units(list: List, t: u8, periods: Periods, base: usize, units: &mut [u64])
    requires { UnitsFillReady periods.h periods.v (list_of list) t base units.old }
    ensures { UnitsFilled periods.h periods.v (list_of list.entry) t base (length list.entry.edges.rows.now) units.old units.new }
{
    let matrix = lookup::matrix_of(t);
    let h = laws::modulus_of(periods.h as u32);
    let v = laws::modulus_of(periods.v as u32);
    for i in 0..list.edges.rows.len() {
        let edge = list.edges.edge_at(i);
        let p = groups::groups::group_place(edge, t, matrix, h, v);
        let value = unit_terms::value_of(list.confidences[i]);
        add_at(units, base + p as usize, value);
    }
}

// Credits a run of n classes, as `credit_run` does counts.
fn credit_unit_run(
    units: &mut [u64],
    terms: [[u64; 3]; 8],
    part: &[u8],
    n: usize,
    at: usize,
    stride: usize,
    across: usize,
)
    requires { RunReadyU terms part.now n at stride across units.old }
    ensures { RunCreditedU terms part.now n at stride across units.old units.new }
{
    for i in 0..n {
        let pattern = part[i] as usize;
        let row = terms[pattern];
        let a = row[0];
        let b = row[1];
        let c = row[2];
        let k = at + i * stride;
        add_at(units, k, a);
        add_at(units, k + across, b);
        add_at(units, k + 2 * across, c);
    }
}

// Folds one family of a side and credits it to the side's cells, in two runs, as `credit_family` does counts.
fn credit_unit_held(tables: Tables, side: Side, family: usize, units: &mut [u64])
    requires { FamilyReadyU (board_of tables) side family units.old }
    ensures { FamilyCreditedU (board_of tables.entry) side family units.old units.new }
{
    let orientation = side.orientation;
    let stride = side.stride;
    let across = side.across;
    let cells = side.cells;
    let terms = unit_terms::fold_values(units, side.groups + family * 6);
    let part = tables.patterns_from(orientation, family);
    let n = part.len();
    credit_unit_run(units, terms, part, n, cells, stride, across);
    let whole = tables.patterns_from(orientation, 0);
    credit_unit_run(
        units,
        terms,
        whole,
        family,
        cells + n * stride,
        stride,
        across,
    );
}

// Credits one family of a side. A family that holds no edge stores nothing.
fn credit_unit_family(tables: Tables, side: Side, family: usize, units: &mut [u64])
    requires { FamilyReadyU (board_of tables) side family units.old }
    ensures { FamilyCreditedU (board_of tables.entry) side family units.old units.new }
{
    if unit_terms::values_held(units, side.groups + family * 6) != 0 {
        credit_unit_held(tables, side, family, units);
    }
}

// Adds all families of one side to its cells. The cells were cleared, and the groups stand.
fn build_unit_side(tables: Tables, side: Side, units: &mut [u64])
    requires { SideReadyU (board_of tables) side units.old }
    ensures { SideBuiltU (board_of tables.entry) side units.old units.new }
{
    let period = tables.patterns_from(side.orientation, 0).len();
    for family in 0..period {
        credit_unit_family(tables, side, family, units);
    }
}

// The values of one transform: the used room is cleared, the groups are filled, then the horizontal cells are built, then the vertical ones. A hit adds its
// value, and a miss nothing.
pub fn build_units(list: List, t: u8, tables: Tables, units: &mut [u64])
    requires { UnitsReady (board_of tables) (list_of list) t units.old }
    ensures { UnitsBuilt (board_of tables.entry) (list_of list.entry) t units.old units.new }
{
    let periods = Periods {
        h: tables.h.len(),
        v: tables.v.len(),
    };
    let end = room::used_by_tables(periods);
    clearing::clear(units, end);
    let horizontal = room::horizontal(periods);
    fill_units(list, t, periods, horizontal.groups, units);
    build_unit_side(tables, horizontal, units);
    let vertical = room::vertical(periods);
    build_unit_side(tables, vertical, units);
}
