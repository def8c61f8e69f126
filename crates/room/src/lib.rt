// Lent room: how the two sides of the tables stand in it, and how much of it is used, over both periods.
#![tactic(auto)]

ghost use Rattle.std.specs.Prelude.{◌≡◌, true, false, ◌≤◌};
ghost use Rattle.room.specs.Room.{by_side, row_length, used, tables_for, sums_for, side_of, PeriodsOk};

use laws::Periods;

// How one side of the tables stands in lent room: 0 for horizontal or 1 for vertical, how far a cell is from that of the next class along the pattern table
// and from that of the next one across it, and where the side's cells and its groups start.
#[derive(Clone, Copy)]
pub struct Side {
    pub orientation: u8,
    pub stride: usize,
    pub across: usize,
    pub cells: usize,
    pub groups: usize,
}

// The horizontal side: its cells stand first, the three of a class side by side; its groups stand after all cells.
pub fn horizontal(p: Periods) -> Side
    requires { PeriodsOk p }
    ensures { result ≡ side_of p true }
{
    Side {
        orientation: 0,
        stride: 3,
        across: 1,
        cells: 0,
        groups: 3 * p.h + 3 * p.v,
    }
}

// The vertical side: its cells stand after the horizontal ones, in three rows as long as its pattern table; its groups stand after the horizontal ones.
pub fn vertical(p: Periods) -> Side
    requires { PeriodsOk p }
    ensures { result ≡ side_of p false }
{
    Side {
        orientation: 1,
        stride: 1,
        across: p.v,
        cells: 3 * p.h,
        groups: 3 * p.h + 3 * p.v + p.h * 6,
    }
}

// How many places a row of the groups of both sides has.
pub fn row_of_groups(p: Periods) -> usize
    requires { PeriodsOk p }
    ensures { result ≡ row_length p.h p.v }
{
    (p.h + p.v) * 6
}

// How many places of the u32 and of the f32 room are used: the cells of both sides and one row of groups.
pub fn used_by_tables(p: Periods) -> usize
    requires { PeriodsOk p }
    ensures { result ≡ used (by_side p) 1 }
{
    3 * p.h + 3 * p.v + row_of_groups(p)
}

// How many places of the i64 room are used: the cells of both sides and two rows of groups.
pub fn used_by_sums(p: Periods) -> usize
    requires { PeriodsOk p }
    ensures { result ≡ used (by_side p) 2 }
{
    3 * p.h + 3 * p.v + 2 * row_of_groups(p)
}

// What a call must lend of the u32 and of the f32 room where its horizontal table has l patterns and its vertical one 167: 3,006 for the flat board.
pub fn tables_for(l: usize) -> usize
    requires { l ≤ 500 }
    ensures { result ≡ tables_for l }
{
    9 * l + 1503
}

// What it must lend of the i64 room: 5,010 for the flat board.
pub fn sums_for(l: usize) -> usize
    requires { l ≤ 500 }
    ensures { result ≡ sums_for l }
{
    15 * l + 2505
}
