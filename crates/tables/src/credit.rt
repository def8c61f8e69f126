// Crediting: a family's terms added to the cells of one side.
ghost use Rattle.cells.specs.Credit.{FamilyReady, FamilyCredited};
ghost use Rattle.board.specs.Given.{board_of};

use board::pattern::Tables;
use room::Side;

// Folds one family of a side and credits it to the side's cells, in two runs: class c reads the pattern c places after the family, so the
// classes past the table's end read it from its start.
fn credit_held(tables: Tables, side: Side, family: usize, counts: &mut [u32], weights: &mut [f32])
    requires { FamilyReady (board_of tables) side family counts.old weights.old }
    ensures { FamilyCredited (board_of tables.entry) side family counts.old counts.new weights.old weights.new }
{
    let orientation = side.orientation;
    let stride = side.stride;
    let across = side.across;
    let cells = side.cells;
    let terms = terms::fold_family(counts, weights, side.groups + family * 6);
    let part = tables.patterns_from(orientation, family);
    let n = part.len();
    cells::run::credit_run(counts, weights, terms, part, n, cells, stride, across);
    let whole = tables.patterns_from(orientation, 0);
    cells::run::credit_run(
        counts,
        weights,
        terms,
        whole,
        family,
        cells + n * stride,
        stride,
        across,
    );
}

// Credits one family of a side. A family that holds no edge stores nothing: its terms are 0, and adding 0 changes no count, and no weight
// without a minus sign.
pub fn credit_family(
    tables: Tables,
    side: Side,
    family: usize,
    counts: &mut [u32],
    weights: &mut [f32],
)
    requires { FamilyReady (board_of tables) side family counts.old weights.old }
    ensures { FamilyCredited (board_of tables.entry) side family counts.old counts.new weights.old weights.new }
{
    if terms::edges_held(counts, side.groups + family * 6) != 0 {
        credit_held(tables, side, family, counts, weights);
    }
}
