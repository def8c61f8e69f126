// C-20's part of a board: a rectangle of origins that starts at a row and a column, runs for a number of each, and wraps at 501.
#![tactic(auto)]

ghost use Rattle.std.specs.Prelude.{◌≡◌};
ghost use Rattle.part.specs.Part.{side_bad, part_bad, SideOk, runs_of};

// The part that was printed: the row and the column at which its origins start, 0 to 500, and how many rows and columns of origins it has, 1 to 501.
#[derive(Clone, Copy)]
pub struct Part {
    pub row: u32,
    pub col: u32,
    pub rows: u32,
    pub cols: u32,
}

// The row or column numbers of a part in order: those below `first`, and those of at least `from` and below `to`.
#[derive(Clone, Copy)]
pub struct Runs {
    pub first: usize,
    pub from: usize,
    pub to: usize,
}

// Whether a start or a number of rows or columns is out of range.
fn side_bad(start: u32, number: u32) -> bool
    ensures { result ≡ side_bad start number }
{
    if start > 500 {
        return true;
    }
    if number == 0 {
        return true;
    }
    number > 501
}

// Whether a part's rows or columns are out of range. Nothing is added up, so no value wraps.
pub fn part_bad(part: Part) -> bool
    ensures { result ≡ part_bad part }
{
    if side_bad(part.row, part.rows) {
        return true;
    }
    side_bad(part.col, part.cols)
}

// The runs of a side: one run where it ends by 501, else also what wrapped to 0.
pub fn runs_of(start: u32, number: u32) -> Runs
    requires { SideOk start number }
    ensures { result ≡ runs_of start number }
{
    let from = start as usize;
    let end = from + number as usize;
    if end <= 501 {
        return Runs {
            first: 0,
            from,
            to: end,
        };
    }
    Runs {
        first: end - 501,
        from,
        to: 501,
    }
}
