// The pattern tables: one bit of a pattern, and a part of one table.
ghost use Rattle.std.specs.Prelude.{◌≡◌, ◌<◌, ◌≤◌, eqb, length, drop};
ghost use Rattle.board.specs.Given.{board_of};
ghost use Rattle.board.specs.Hits.{bit_at};
ghost use Rattle.board.specs.Sides.{table_of};

// The two pattern tables of a board, horizontal and vertical. Their lengths are its periods.
#[derive(Clone, Copy)]
pub struct Tables<'a> {
    pub h: &'a [u8],
    pub v: &'a [u8],
}

// Bit j of a three-bit pattern, by shift and mask.
pub fn pattern_bit(pattern: u8, j: u32) -> u8
    requires { j < 3 }
    ensures { result ≡ bit_at pattern j }
{
    (pattern >> j) & 1
}

impl<'a> Tables<'a> {
    // The patterns from one family on, of the table that belongs to the orientation (0 horizontal): a part of one of the two.
    pub fn patterns_from(self, orientation: u8, family: usize) -> &'a [u8]
        requires { family ≤ length (table_of (board_of self) (eqb orientation 0)) }
        ensures { result.now ≡ drop family (table_of (board_of self.entry) (eqb orientation 0)) }
    {
        if orientation == 0 {
            &self.h[family..]
        } else {
            &self.v[family..]
        }
    }
}
