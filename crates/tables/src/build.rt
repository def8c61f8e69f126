// The class tables of one transform, in lent room.
ghost use Rattle.tables.specs.Side.{SideReady, SideBuilt};
ghost use Rattle.tables.specs.Built.{TablesReady, TablesBuilt};
ghost use Rattle.board.specs.Given.{board_of, list_of};

use board::list::List;
use board::pattern::Tables;
use laws::Periods;
use room::Side;

// Adds all families of one side to its cells, by rising long residue: the n-th is family n - 1. The order is a promise, since weights are rounded with each
// addition. The cells were cleared, and the groups stand.
fn build_side(tables: Tables, side: Side, counts: &mut [u32], weights: &mut [f32])
    requires { SideReady (board_of tables) side counts.old weights.old }
    ensures { SideBuilt (board_of tables.entry) side counts.old counts.new weights.old weights.new }
{
    let period = tables.patterns_from(side.orientation, 0).len();
    for nth in 1..period + 1 {
        crate::credit::credit_family(tables, side, nth - 1, counts, weights);
    }
}

// The tables of one transform: the used room is cleared, the groups are filled, then the horizontal cells are built, then the vertical ones.
pub fn build_tables(list: List, t: u8, tables: Tables, counts: &mut [u32], weights: &mut [f32])
    requires { TablesReady (board_of tables) (list_of list) t counts.old weights.old }
    ensures { TablesBuilt (board_of tables.entry) (list_of list.entry) t counts.old counts.new weights.old weights.new }
{
    let periods = Periods {
        h: tables.h.len(),
        v: tables.v.len(),
    };
    let end = room::used_by_tables(periods);
    clearing::clear(counts, end);
    clearing::clear(weights, end);
    let horizontal = room::horizontal(periods);
    groups::groups::fill_groups(list, t, periods, horizontal.groups, counts, weights);
    build_side(tables, horizontal, counts, weights);
    build_side(tables, room::vertical(periods), counts, weights);
}
