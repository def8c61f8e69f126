// Which edge a refusal is about: one bad edge of each kind at the first, a middle and the last place of each list; two bad edges of one kind; and two kinds in two
// lists. Lists have five edges. What hard decode, soft decode and match statistics of the logical list say is written in a line. Positions count from 0.
use admission::call::{HardCall, SoftCall};
use answer::{Square, StatsAnswer};
use board::pattern::Tables;
use likelihood::Likelihoods;
use refusals::Admission;
use runs::print::{print_admission, print_stats};
use slices::page::Page;
use std::{fmt, io};

// The field of an edge that is bad; the last two are the log likelihoods of a match and of a mismatch.
#[derive(Clone, Copy, PartialEq, Eq)]
enum Field {
    Row,
    Column,
    Orientation,
    Bit,
    Confidence,
    Match,
    Mismatch,
}

impl fmt::Display for Field {
    fn fmt<W: fmt::Write>(&self, f: &mut fmt::Formatter<W>) -> fmt::Result {
        f.write_str(match self {
            Field::Row => "row",
            Field::Column => "column",
            Field::Orientation => "orientation",
            Field::Bit => "bit",
            Field::Confidence => "confidence",
            Field::Match => "match",
            Field::Mismatch => "mismatch",
        })
    }
}

// The list of an edge.
#[derive(Clone, Copy, PartialEq, Eq)]
enum List {
    Logical,
    Physical,
}

impl fmt::Display for List {
    fn fmt<W: fmt::Write>(&self, f: &mut fmt::Formatter<W>) -> fmt::Result {
        f.write_str(match self {
            List::Logical => "logical",
            List::Physical => "physical",
        })
    }
}

// A bad edge: the field that is bad, the list and the position.
#[derive(Clone, Copy)]
struct Bad {
    field: Field,
    list: List,
    at: usize,
}

impl fmt::Display for Bad {
    fn fmt<W: fmt::Write>(&self, f: &mut fmt::Formatter<W>) -> fmt::Result {
        let Bad { field, list, at } = *self;
        write!(f, "{list} {field} at {at}")
    }
}

// An edge that is bad in a field.
fn spoilt(field: Field, list: List, at: usize) -> Bad {
    Bad { field, list, at }
}

// The column of a field of a list of good edges, with what is wrong at each bad edge.
fn spoil<T: Copy>(column: &mut [T], wrong: T, field: Field, list: List, bad: &[Bad]) {
    for b in bad {
        if b.field == field && b.list == list && b.at < column.len() {
            column[b.at] = wrong;
        }
    }
}

// A list of five edges.
#[derive(Clone, Copy)]
struct Edges {
    rows: [i32; 5],
    cols: [i32; 5],
    orientations: [u8; 5],
    bits: [u8; 5],
    confidences: [f32; 5],
}

impl Edges {
    // As the library takes them.
    fn lent(&self) -> board::list::List<'_> {
        board::list::List {
            edges: board::list::Edges {
                rows: &self.rows,
                cols: &self.cols,
                orientations: &self.orientations,
                bits: &self.bits,
            },
            confidences: &self.confidences,
        }
    }
}

// A list of good edges, but for the bad ones.
fn edges_of(list: List, bad: &[Bad]) -> Edges {
    let mut rows = [3; 5];
    let mut cols = [4; 5];
    let mut orientations = [1; 5];
    let mut bits = [0; 5];
    let mut confidences = [0.5; 5];
    spoil(&mut rows, 1000001, Field::Row, list, bad);
    spoil(&mut cols, -1000001, Field::Column, list, bad);
    spoil(&mut orientations, 2, Field::Orientation, list, bad);
    spoil(&mut bits, 2, Field::Bit, list, bad);
    spoil(&mut confidences, 1.5, Field::Confidence, list, bad);
    Edges {
        rows,
        cols,
        orientations,
        bits,
        confidences,
    }
}

// What hard decode's checks say of a good call with the bad edges.
fn hard_of(bad: &[Bad]) -> Admission {
    let l = edges_of(List::Logical, bad);
    let p = edges_of(List::Physical, bad);
    let transforms = [5u8; 1];
    let table = [2u8; 167];
    let logical = l.lent();
    let physical = p.lent();
    let call = HardCall {
        logical,
        physical,
        transforms: &transforms,
        tables: Tables {
            h: &table,
            v: &table,
        },
        error_limit: 0.25,
    };
    admission::refusal::hard_admission(call, 3006, 3006)
}

// What soft decode's checks say of it.
fn soft_of(bad: &[Bad]) -> Admission {
    let l = edges_of(List::Logical, bad);
    let p = edges_of(List::Physical, bad);
    let mut matches = [-0.25; 5];
    let mut mismatches = [-2.0; 5];
    spoil(&mut matches, 65537.0, Field::Match, List::Physical, bad);
    spoil(
        &mut mismatches,
        -65537.0,
        Field::Mismatch,
        List::Physical,
        bad,
    );
    let transforms = [5u8; 1];
    let table = [2u8; 167];
    let logical = l.lent();
    let physical = p.lent();
    let hard = HardCall {
        logical,
        physical,
        transforms: &transforms,
        tables: Tables {
            h: &table,
            v: &table,
        },
        error_limit: 0.25,
    };
    let likelihoods = Likelihoods {
        matches: &matches,
        mismatches: &mismatches,
    };
    let call = SoftCall {
        hard,
        likelihoods,
        soft_margin: 0.5,
    };
    soft_admission::soft_admission(call, 3006, 3006, 5010)
}

// What match statistics say of the logical list.
fn stats_of(bad: &[Bad]) -> StatsAnswer {
    let l = edges_of(List::Logical, bad);
    let table = [2u8; 167];
    let list = l.lent();
    let tables = Tables {
        h: &table,
        v: &table,
    };
    let square = Square {
        transform: 5,
        row: 500,
        col: 0,
    };
    stats::stats::match_stats(list, square, tables)
}

// What the three calls say of the good input with the bad edges, one or more.
fn show(rt: &impl Print, bad: &[Bad]) -> io::Result<()> {
    let mut page = Page::blank();
    let mut between = "";
    for b in bad {
        write!(page, "{between}{b}");
        between = " and ";
    }
    rt.write_all(page.text())?;
    print!(rt; ": hard ")?;
    print_admission(rt, hard_of(bad))?;
    print!(rt; ", soft ")?;
    print_admission(rt, soft_of(bad))?;
    print!(rt; ", statistics ")?;
    print_stats(rt, stats_of(bad))?;
    println!(rt; "")
}

// One bad edge, at the first, a middle and the last place of a list.
fn places(rt: &impl Print, field: Field, list: List) -> io::Result<()> {
    show(rt, &[spoilt(field, list, 0)])?;
    show(rt, &[spoilt(field, list, 2)])?;
    show(rt, &[spoilt(field, list, 4)])
}

// Each field that both lists have.
fn fields(rt: &impl Print, list: List) -> io::Result<()> {
    places(rt, Field::Row, list)?;
    places(rt, Field::Column, list)?;
    places(rt, Field::Orientation, list)?;
    places(rt, Field::Bit, list)?;
    places(rt, Field::Confidence, list)
}

// Two bad edges of one kind: in one list, and in both. The first is given, of the logical list where both have one.
fn one_kind(rt: &impl Print, field: Field) -> io::Result<()> {
    show(
        rt,
        &[
            spoilt(field, List::Logical, 3),
            spoilt(field, List::Logical, 1),
        ],
    )?;
    show(
        rt,
        &[
            spoilt(field, List::Physical, 3),
            spoilt(field, List::Physical, 1),
        ],
    )?;
    show(
        rt,
        &[
            spoilt(field, List::Physical, 1),
            spoilt(field, List::Logical, 3),
        ],
    )
}

// The same of each kind. A row and a column are of one kind, and so are the two likelihoods.
fn kinds(rt: &impl Print) -> io::Result<()> {
    one_kind(rt, Field::Row)?;
    one_kind(rt, Field::Orientation)?;
    one_kind(rt, Field::Bit)?;
    one_kind(rt, Field::Confidence)?;
    show(
        rt,
        &[
            spoilt(Field::Row, List::Logical, 3),
            spoilt(Field::Column, List::Logical, 1),
        ],
    )?;
    show(
        rt,
        &[
            spoilt(Field::Match, List::Physical, 3),
            spoilt(Field::Mismatch, List::Physical, 1),
        ],
    )?;
    show(
        rt,
        &[
            spoilt(Field::Mismatch, List::Physical, 3),
            spoilt(Field::Match, List::Physical, 1),
        ],
    )
}

// Bad edges of two kinds in two lists: the kind that comes first is given, also where it stands in the physical list and later.
fn two_kinds(rt: &impl Print, field: Field, later: Field) -> io::Result<()> {
    show(
        rt,
        &[
            spoilt(field, List::Physical, 4),
            spoilt(later, List::Logical, 0),
        ],
    )?;
    show(
        rt,
        &[
            spoilt(field, List::Logical, 4),
            spoilt(later, List::Physical, 0),
        ],
    )
}

// All cases.
pub(crate) fn show_all(rt: &impl Print) -> io::Result<()> {
    fields(rt, List::Logical)?;
    fields(rt, List::Physical)?;
    places(rt, Field::Match, List::Physical)?;
    places(rt, Field::Mismatch, List::Physical)?;
    kinds(rt)?;
    two_kinds(rt, Field::Row, Field::Orientation)?;
    two_kinds(rt, Field::Orientation, Field::Bit)?;
    two_kinds(rt, Field::Bit, Field::Confidence)?;
    two_kinds(rt, Field::Column, Field::Confidence)?;
    show(
        rt,
        &[
            spoilt(Field::Confidence, List::Logical, 4),
            spoilt(Field::Match, List::Physical, 0),
        ],
    )
}
