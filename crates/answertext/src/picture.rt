// The picture: the whole board (SVG) with the square that the camera faces, the view's outline and the runner-up. Its unit is a square of the board; two pixels show one.
// A board has 501 columns, and rows by its pole's length: 501 on the flat board.
ghost use Rattle.std.specs.Prelude.{◌≤◌};

use crate::shown::Shown;
use crate::words::{Other, orientation_of};
use answer::Square;
use console::number::Decimal;
use std::fmt;
use viewtext::view_file::Extent;

// How many columns a board has.
const COLUMNS: u32 = 501;

// How many rows a board has.
#[derive(Clone, Copy)]
pub(crate) struct Rows {
    count: u32,
    ghost some: { 12 ≤ count },
    ghost few: { count ≤ 1500 },
}

impl Rows {
    // Three times the pole's length, which is from 4 to 500; those of the flat board for any other.
    pub(crate) fn of_pole(length: usize) -> Rows {
        match length {
            4..=500 => Rows {
                count: 3 * length as u32,
            },
            _ => Rows { count: 501 },
        }
    }

    // How many rows the picture has room for: a short pole's board leaves some, so that the name of a square stands above the legend.
    fn room(self) -> u32
        ensures { result ≤ 1500 }
    {
        self.count.max(61)
    }

    // How high the picture is, with its scales and its legend.
    fn height(self) -> u32
        ensures { result ≤ 3228 }
    {
        2 * self.room() + 228
    }
}

// The picture of a found answer.
#[derive(Clone, Copy)]
pub(crate) struct Picture {
    pub shown: Shown,
    pub extent: Extent,
    pub rows: Rows,
}

impl fmt::Display for Picture {
    fn fmt<W: fmt::Write>(&self, f: &mut fmt::Formatter<W>) -> fmt::Result {
        let Picture {
            shown,
            extent,
            rows,
        } = *self;
        let outline = Outline::of(extent, shown.square, rows);
        write!(
            f,
            "{}{}{outline}{}{}{}",
            Ground(rows),
            Squares(rows),
            Second {
                square: shown.runner_up,
                rows,
            },
            Faced {
                square: shown.square,
                rows,
            },
            Legend {
                shown,
                outline,
                rows,
            },
        )
    }
}

// How every picture of a board with so many rows begins.
#[derive(Clone, Copy)]
pub(crate) struct Head(pub Rows);

impl fmt::Display for Head {
    fn fmt<W: fmt::Write>(&self, f: &mut fmt::Formatter<W>) -> fmt::Result {
        let Head(rows) = *self;
        let high = rows.height();
        write!(
            f,
            "<svg xmlns=\"http://www.w3.org/2000/svg\" viewBox=\"0 0 1130 {high}\" width=\"1130\" height=\"{high}\" font-family=\"sans-serif\" font-size=\"18\">\n\
            <title>samburext: the square that the camera faces</title>\n"
        )
    }
}

// The start of the picture: its head, its ground and the scales.
#[derive(Clone, Copy)]
struct Ground(Rows);

impl fmt::Display for Ground {
    fn fmt<W: fmt::Write>(&self, f: &mut fmt::Formatter<W>) -> fmt::Result {
        let Ground(rows) = *self;
        write!(
            f,
            "{}<defs><pattern id=\"squares\" width=\"2\" height=\"2\" patternUnits=\"userSpaceOnUse\"><rect width=\"2\" height=\"2\" fill=\"#fff\"/><rect width=\"1\" height=\"1\" fill=\"#ddd\"/><rect x=\"1\" y=\"1\" width=\"1\" height=\"1\" fill=\"#ddd\"/></pattern></defs>\n\
            <rect width=\"1130\" height=\"{}\" fill=\"#fff\"/>\n\
            <text x=\"571\" y=\"24\" text-anchor=\"middle\">column</text><text transform=\"translate(20 {}) rotate(-90)\" text-anchor=\"middle\">row</text>\n\
            {}",
            Head(rows),
            rows.height(),
            rows.count + 60,
            Scales(rows),
        )
    }
}

// The scales, with a number every 100 squares, as far as the board reaches: columns along the top, rows along the left.
#[derive(Clone, Copy)]
struct Scales(Rows);

impl fmt::Display for Scales {
    fn fmt<W: fmt::Write>(&self, f: &mut fmt::Formatter<W>) -> fmt::Result {
        let rows = self.0.count;
        for k in 0..15u32 {
            let number = 100 * k;
            if number < COLUMNS {
                write!(
                    f,
                    "<text y=\"50\" text-anchor=\"middle\" x=\"{}\">{number}</text>",
                    70 + 2 * number
                )?;
            }
            if number < rows {
                write!(
                    f,
                    "<text x=\"62\" text-anchor=\"end\" y=\"{}\">{number}</text>",
                    66 + 2 * number
                )?;
            }
            if number < COLUMNS || number < rows {
                write!(f, "\n")?;
            }
        }
        Ok(())
    }
}

// The board with its squares, a line every 50.
#[derive(Clone, Copy)]
struct Squares(Rows);

impl fmt::Display for Squares {
    fn fmt<W: fmt::Write>(&self, f: &mut fmt::Formatter<W>) -> fmt::Result {
        let rows = self.0.count;
        let high = 2 * rows;
        write!(
            f,
            "<svg x=\"70\" y=\"60\" width=\"1002\" height=\"{high}\" viewBox=\"0 0 501 {rows}\">\n\
            <rect width=\"501\" height=\"{rows}\" fill=\"url(#squares)\"/>\n\
            <path stroke=\"#999\" stroke-width=\".5\" fill=\"none\" d=\"M0 0H501V{rows}H0Z"
        )?;
        for k in 1..11u32 {
            write!(f, "M{} 0V{rows}", 50 * k)?;
        }
        for k in 1..30u32 {
            if 50 * k < rows {
                write!(f, "M0 {}H501", 50 * k)?;
            }
        }
        write!(f, "\"/>\n")
    }
}

// One side of the outline: where it begins on the board, and how many squares it has.
#[derive(Clone, Copy)]
struct Span {
    from: u32,
    size: u32,
}

// The outline of the view on the board.
#[derive(Clone, Copy)]
struct Outline {
    columns: Span,
    lines: Span,
    rows: Rows,
}

impl Outline {
    // The squares that a view covers whose square lies at the view's origin.
    fn of(extent: Extent, square: Square, rows: Rows) -> Outline {
        let [by_columns, by_rows] = lookup::matrix_of(square.transform % 8);
        Outline {
            columns: span_of(extent, by_columns, square.col, COLUMNS),
            lines: span_of(extent, by_rows, square.row, rows.count),
            rows,
        }
    }
}

// The outline along one side of the board, by the matrix's entries for that side: it goes with the view's columns or with its rows, and falls where the entry is -1.
fn span_of(extent: Extent, entries: [i32; 2], origin: u32, period: u32) -> Span
    requires { (12 ≤ period) × (period ≤ 1500) }
{
    let [by_column, by_row] = entries;
    if by_row == 0 {
        return covered(extent.left, extent.right, by_column < 0, origin, period);
    }
    covered(extent.top, extent.bottom, by_row < 0, origin, period)
}

// The squares of the board that the view's coordinates from low to high cover at an origin, along one side, which has a period of squares. The coordinates are
// counted from -1,000,000; 1,000,000 periods are added so that nothing falls below 0.
fn covered(low: u32, high: u32, falls: bool, origin: u32, period: u32) -> Span
    requires { (12 ≤ period) × (period ≤ 1500) }
{
    if high > 2000000 || low > high || origin >= period {
        return Span { from: 0, size: 1 };
    }
    let size = period.min(high - low + 1);
    let first = origin + 1000000 * period;
    let from = if falls {
        first + 999999 - high
    } else {
        first + low - 1000000
    };
    Span {
        from: from % period,
        size,
    }
}

// The board goes on beyond its last square with its first, so an outline that runs over an edge is drawn once more, one board before.
impl fmt::Display for Outline {
    fn fmt<W: fmt::Write>(&self, f: &mut fmt::Formatter<W>) -> fmt::Result {
        let Outline {
            columns,
            lines,
            rows,
        } = *self;
        let left = columns.from % COLUMNS;
        let top = lines.from % rows.count;
        let before = COLUMNS - left;
        let above = rows.count - top;
        let wide = columns.size;
        let high = lines.size;
        write!(
            f,
            "<g fill=\"#1f6fd0\" fill-opacity=\".3\" stroke=\"#1f6fd0\" stroke-width=\"1\">\n\
            <rect x=\"{left}\" y=\"{top}\" width=\"{wide}\" height=\"{high}\"/>\n\
            <rect x=\"-{before}\" y=\"{top}\" width=\"{wide}\" height=\"{high}\"/>\n\
            <rect x=\"{left}\" y=\"-{above}\" width=\"{wide}\" height=\"{high}\"/>\n\
            <rect x=\"-{before}\" y=\"-{above}\" width=\"{wide}\" height=\"{high}\"/>\n\
            </g>\n"
        )
    }
}

// A square's name: its baseline above the square, or below where there is no room, and its end or its start beside it, on the side where there is more room.
#[derive(Clone, Copy)]
struct Label {
    square: Square,
    rows: Rows,
    name: &'static str,
}

impl fmt::Display for Label {
    fn fmt<W: fmt::Write>(&self, f: &mut fmt::Formatter<W>) -> fmt::Result {
        let Label { square, rows, name } = *self;
        let row = square.row % rows.count;
        let col = square.col % COLUMNS;
        let y = if row > 30 { row - 11 } else { row + 30 };
        if col > 250 {
            write!(
                f,
                "<text font-size=\"9\" y=\"{y}\" x=\"{}\" text-anchor=\"end\">{name}</text>\n",
                col - 9
            )
        } else {
            write!(
                f,
                "<text font-size=\"9\" y=\"{y}\" x=\"{}\">{name}</text>\n",
                col + 9
            )
        }
    }
}

// The square that the camera faces: a ring round it, an arrow that is right in the view, a broken one that is down, and its name. The transform's matrix is given
// column by column.
#[derive(Clone, Copy)]
struct Faced {
    square: Square,
    rows: Rows,
}

impl fmt::Display for Faced {
    fn fmt<W: fmt::Write>(&self, f: &mut fmt::Formatter<W>) -> fmt::Result {
        let Faced { square, rows } = *self;
        let [[a, c], [b, d]] = lookup::matrix_of(square.transform % 8);
        let row = square.row;
        let col = square.col;
        let label = Label {
            square,
            rows,
            name: "camera",
        };
        write!(
            f,
            "<g transform=\"translate({col} {row}) matrix({a} {b} {c} {d} 0 0)\" fill=\"none\" stroke=\"#c00000\" stroke-width=\"1.5\">\n\
            <path d=\"M0 0H26M20 -4L26 0L20 4M-4 15L0 21L4 15\"/><path d=\"M0 0V21\" stroke-dasharray=\"2 1.5\"/>\n\
            </g>\n\
            <g transform=\"translate({col} {row})\">\n\
            <rect width=\"1\" height=\"1\" fill=\"#c00000\"/><circle cx=\".5\" cy=\".5\" r=\"7\" fill=\"none\" stroke=\"#c00000\" stroke-width=\"2\"/>\n\
            </g>\n\
            {label}"
        )
    }
}

// The runner-up: a broken ring round it, and its name. What lies beyond the board is shown from here on.
#[derive(Clone, Copy)]
struct Second {
    square: Square,
    rows: Rows,
}

impl fmt::Display for Second {
    fn fmt<W: fmt::Write>(&self, f: &mut fmt::Formatter<W>) -> fmt::Result {
        let Second { square, rows } = *self;
        let count = rows.count;
        write!(
            f,
            "</svg>\n\
            <svg x=\"70\" y=\"60\" width=\"1002\" height=\"{}\" viewBox=\"0 0 501 {count}\" overflow=\"visible\">\n\
            <g transform=\"translate({} {})\">\n\
            <rect width=\"1\" height=\"1\" fill=\"#d07000\"/><circle cx=\".5\" cy=\".5\" r=\"7\" fill=\"none\" stroke=\"#d07000\" stroke-width=\"2\" stroke-dasharray=\"3 2\"/>\n\
            </g>\n\
            {}",
            2 * count,
            square.col,
            square.row,
            Label {
                square,
                rows,
                name: "runner-up",
            },
        )
    }
}

// What each mark is, in words, below the board.
#[derive(Clone, Copy)]
struct Legend {
    shown: Shown,
    outline: Outline,
    rows: Rows,
}

impl fmt::Display for Legend {
    fn fmt<W: fmt::Write>(&self, f: &mut fmt::Formatter<W>) -> fmt::Result {
        let Legend {
            shown,
            outline,
            rows,
        } = *self;
        let square = shown.square;
        let transform = square.transform;
        let first = 2 * rows.room() + 98;
        write!(
            f,
            "</svg>\n\
            <text x=\"70\" y=\"{first}\" fill=\"#c00000\">camera: row {}, column {}; the board appears {} (transform {transform})</text>\n\
            <text x=\"70\" y=\"{}\" fill=\"#c00000\">arrow: right in the view; broken arrow: down in the view; they start at the view's row 0, column 0</text>\n\
            <text x=\"70\" y=\"{}\" fill=\"#1f6fd0\">outline of the view: {} rows by {} columns of the board</text>\n",
            square.row,
            square.col,
            orientation_of(transform),
            first + 26,
            first + 52,
            outline.lines.size,
            outline.columns.size,
        )?;
        write!(
            f,
            "<text x=\"70\" y=\"{}\">hits: {} of {} edges, error rate {}</text>\n\
            <text x=\"70\" y=\"{}\" fill=\"#d07000\">runner-up: {}, with {} hits</text>\n\
            </svg>\n",
            first + 78,
            shown.hits,
            shown.edges,
            Decimal(shown.error_rate),
            first + 104,
            Other(shown.runner_up),
            shown.runner_up_hits,
        )
    }
}
