// Tries each refusal from 1 to 9, 16 and 17 alone, each pair of neighbours (those of 4, 16 and 17 in `which_edge`), the limits of every range, and NaN, infinities and -0
// in each float place. A case is a good call with one or two faults; what hard decode, soft decode and match statistics say of it is written in a line.
use admission::call::{HardCall, SoftCall};
use answer::{Square, StatsAnswer};
use board::list::{Edges, List};
use board::pattern::Tables;
use likelihood::Likelihoods;
use refusals::Admission;
use runs::print::{print_admission, print_stats};
use slices::part::front;
use std::io;

// A place of a call that holds a float: a logical edge's confidence, the log likelihoods of a match and of a mismatch, the error limit and the soft margin.
#[derive(Clone, Copy, PartialEq, Eq)]
enum Place {
    Confidence,
    Match,
    Mismatch,
    Limit,
    Margin,
}

impl Place {
    // The floats that it is tried with.
    fn range(self) -> Range {
        let (good, above, below, end) = match self {
            Place::Confidence => (0.5, 1.5, -0.5, 1.0),
            Place::Match => (-0.25, 65536.0078125, -65536.0078125, -65536.0),
            Place::Mismatch => (-2.0, 65536.0078125, -65536.0078125, -65536.0),
            Place::Limit => (0.25, 1.5, -0.5, 1.0),
            Place::Margin => (0.5, 98304.0, -0.5, 65536.0),
        };
        Range {
            good,
            above,
            below,
            end,
        }
    }
}

// What a float place is tried with: a good float, one above its range, one below it, and one at its end, which is taken.
#[derive(Clone, Copy)]
struct Range {
    good: f32,
    above: f32,
    below: f32,
    end: f32,
}

impl Range {
    // The float of a kind, or the good one.
    fn of(self, kind: Option<Kind>) -> f32 {
        match kind {
            None => self.good,
            Some(Kind::Nan) => 0.0 / 0.0,
            Some(Kind::Infinity) => 1.0 / 0.0,
            Some(Kind::MinusInfinity) => -1.0 / 0.0,
            Some(Kind::Above) => self.above,
            Some(Kind::Below) => self.below,
            Some(Kind::MinusZero) => -0.0,
            Some(Kind::End) => self.end,
        }
    }
}

// The kind of a float that is not the good one.
#[derive(Clone, Copy, PartialEq, Eq)]
enum Kind {
    Nan,
    Infinity,
    MinusInfinity,
    Above,
    Below,
    MinusZero,
    End,
}

// What a case has in place of what a good call has; some of it is taken as well. A fault of a list, a table or the transforms is in the first element.
#[derive(Clone, Copy, PartialEq, Eq)]
enum Fault {
    None,
    // lent room, columns and lists of other lengths
    CountsShort,
    WeightsShort,
    SumsShort,
    ColumnsShort,
    PhysicalConfidencesShort,
    MatchesShort,
    Empty,
    PhysicalEmpty,
    Edges1,
    Edges8192,
    Edges8193,
    // an edge of the logical list
    RowAbove,
    RowBelow,
    RowLeast,
    ColAbove,
    ColMost,
    Orientation,
    Bit,
    Missed,
    // an edge of the physical list
    PhysicalRow,
    PhysicalOrientation,
    PhysicalConfidence,
    // transforms, pattern tables, and the origin for match statistics
    Transform,
    NoTransforms,
    NineTransforms,
    HorizontalPattern,
    VerticalPattern,
    HorizontalTable,
    VerticalTable,
    OriginRow,
    OriginCol,
    // a float
    Float(Place, Kind),
}

impl Fault {
    // The kind of the float that it puts in a place, if it puts one there.
    fn float_in(self, place: Place) -> Option<Kind> {
        match self {
            Fault::Float(at, kind) => { if at == place { Some(kind) } else { None } }
            _ => None,
        }
    }
}

// The faults of a case: two, of which one or both may be none.
#[derive(Clone, Copy)]
struct Case {
    one: Fault,
    other: Fault,
}

impl Case {
    // x if the fault is one of the two, else y.
    fn pick<T: Copy>(self, fault: Fault, x: T, y: T) -> T {
        if self.one == fault || self.other == fault {
            x
        } else {
            y
        }
    }

    // The float at a place.
    fn float(self, place: Place) -> f32 {
        let kind = match self.one.float_in(place) {
            None => self.other.float_in(place),
            found => found,
        };
        place.range().of(kind)
    }

    // The first row of the logical list.
    fn row(self) -> i32 {
        let x = self.pick(Fault::RowAbove, 1000001, 3);
        let x = self.pick(Fault::RowBelow, -1000001, x);
        self.pick(Fault::RowLeast, -1000000, x)
    }

    // The first column of both lists.
    fn col(self) -> i32 {
        let x = self.pick(Fault::ColAbove, 1000001, 4);
        self.pick(Fault::ColMost, 1000000, x)
    }

    // The first bit of both lists.
    fn bit(self) -> u8 {
        let x = self.pick(Fault::Bit, 2, 0);
        self.pick(Fault::Missed, 1, x)
    }

    // How many edges both lists have, where neither is empty.
    fn edges(self) -> usize {
        let n = self.pick(Fault::Edges8193, 8193, 2);
        let n = self.pick(Fault::Edges8192, 8192, n);
        self.pick(Fault::Edges1, 1, n)
    }
}

// The columns of a case: the logical list's, then those of the physical list that differ from them, likelihoods, transforms and tables.
#[derive(Drop)]
struct Columns {
    rows: [i32; 8193],
    cols: [i32; 8193],
    orientations: [u8; 8193],
    bits: [u8; 8193],
    confidences: [f32; 8193],
    prows: [i32; 8193],
    porientations: [u8; 8193],
    pconfidences: [f32; 8193],
    matches: [f32; 8193],
    mismatches: [f32; 8193],
    transforms: [u8; 8193],
    h: [u8; 8193],
    v: [u8; 8193],
}

// How long the columns of a case are, and how much room it is lent.
#[derive(Clone, Copy)]
struct Lengths {
    logical: usize,
    cols: usize,
    physical: usize,
    pconfidences: usize,
    matches: usize,
    transforms: usize,
    h: usize,
    v: usize,
    counts: usize,
    weights: usize,
    sums: usize,
}

// The lengths of a good call with the faults of a case.
fn lengths_of(case: Case) -> Lengths {
    let logical = case.pick(Fault::Empty, 0, case.edges());
    let physical = case.pick(Fault::PhysicalEmpty, 0, case.edges());
    let transforms = case.pick(Fault::NineTransforms, 9, 8);
    Lengths {
        logical,
        cols: case.pick(Fault::ColumnsShort, 1, logical),
        physical,
        pconfidences: case.pick(Fault::PhysicalConfidencesShort, 1, physical),
        matches: case.pick(Fault::MatchesShort, 1, physical),
        transforms: case.pick(Fault::NoTransforms, 0, transforms),
        h: case.pick(Fault::HorizontalTable, 168, 167),
        v: case.pick(Fault::VerticalTable, 168, 167),
        counts: case.pick(Fault::CountsShort, 3005, 3006),
        weights: case.pick(Fault::WeightsShort, 3005, 3006),
        sums: case.pick(Fault::SumsShort, 5009, 5010),
    }
}

impl Columns {
    // The columns of a good call. They are made once, and each case puts its faults into them.
    fn good() -> Columns {
        Columns {
            rows: [3; 8193],
            cols: [4; 8193],
            orientations: [1; 8193],
            bits: [0; 8193],
            confidences: [Place::Confidence.range().good; 8193],
            prows: [3; 8193],
            porientations: [1; 8193],
            pconfidences: [0.5; 8193],
            matches: [Place::Match.range().good; 8193],
            mismatches: [Place::Mismatch.range().good; 8193],
            transforms: [5; 8193],
            h: [2; 8193],
            v: [5; 8193],
        }
    }

    // The faults of a case, in the first place of each column.
    fn spoil(&mut self, case: Case) {
        self.rows[0] = case.row();
        self.cols[0] = case.col();
        self.orientations[0] = case.pick(Fault::Orientation, 2, 1);
        self.bits[0] = case.bit();
        self.confidences[0] = case.float(Place::Confidence);
        self.prows[0] = case.pick(Fault::PhysicalRow, 1000001, 3);
        self.porientations[0] = case.pick(Fault::PhysicalOrientation, 2, 1);
        self.pconfidences[0] = case.pick(Fault::PhysicalConfidence, 1.5, 0.5);
        self.matches[0] = case.float(Place::Match);
        self.mismatches[0] = case.float(Place::Mismatch);
        self.transforms[0] = case.pick(Fault::Transform, 8, 5);
        self.h[0] = case.pick(Fault::HorizontalPattern, 8, 2);
        self.v[0] = case.pick(Fault::VerticalPattern, 8, 5);
    }

    // The logical list.
    fn logical(&self, n: Lengths) -> List<'_> {
        List {
            edges: Edges {
                rows: front(&self.rows, n.logical),
                cols: front(&self.cols, n.cols),
                orientations: front(&self.orientations, n.logical),
                bits: front(&self.bits, n.logical),
            },
            confidences: front(&self.confidences, n.logical),
        }
    }

    // The physical list.
    fn physical(&self, n: Lengths) -> List<'_> {
        List {
            edges: Edges {
                rows: front(&self.prows, n.physical),
                cols: front(&self.cols, n.physical),
                orientations: front(&self.porientations, n.physical),
                bits: front(&self.bits, n.physical),
            },
            confidences: front(&self.pconfidences, n.pconfidences),
        }
    }

    // The pattern tables.
    fn tables(&self, n: Lengths) -> Tables<'_> {
        Tables {
            h: front(&self.h, n.h),
            v: front(&self.v, n.v),
        }
    }

    // The call of hard decode under an error limit.
    fn hard(&self, n: Lengths, error_limit: f32) -> HardCall<'_> {
        HardCall {
            logical: self.logical(n),
            physical: self.physical(n),
            transforms: front(&self.transforms, n.transforms),
            tables: self.tables(n),
            error_limit,
        }
    }

    // The likelihoods of the physical list's edges.
    fn likelihoods(&self, n: Lengths) -> Likelihoods<'_> {
        Likelihoods {
            matches: front(&self.matches, n.matches),
            mismatches: front(&self.mismatches, n.physical),
        }
    }
}

// What hard decode's checks say of a good call with the faults of a case.
fn hard_of(columns: &Columns, case: Case) -> Admission {
    let n = lengths_of(case);
    let call = columns.hard(n, case.float(Place::Limit));
    admission::refusal::hard_admission(call, n.counts, n.weights)
}

// What soft decode's checks say of it.
fn soft_of(columns: &Columns, case: Case) -> Admission {
    let n = lengths_of(case);
    let call = SoftCall {
        hard: columns.hard(n, case.float(Place::Limit)),
        likelihoods: columns.likelihoods(n),
        soft_margin: case.float(Place::Margin),
    };
    soft_admission::soft_admission(call, n.counts, n.weights, n.sums)
}

// What match statistics say of the logical list.
fn stats_of(columns: &Columns, case: Case) -> StatsAnswer {
    let n = lengths_of(case);
    let square = Square {
        transform: case.pick(Fault::Transform, 8, 5),
        row: case.pick(Fault::OriginRow, 501, 500),
        col: case.pick(Fault::OriginCol, 501, 0),
    };
    stats::stats::match_stats(columns.logical(n), square, columns.tables(n))
}

// What the three calls say of the good input with the faults of a case.
fn show_case(rt: &impl Print, columns: &mut Columns, case: Case) -> io::Result<()> {
    columns.spoil(case);
    print!(rt; ": hard ")?;
    print_admission(rt, hard_of(columns, case))?;
    print!(rt; ", soft ")?;
    print_admission(rt, soft_of(columns, case))?;
    print!(rt; ", statistics ")?;
    print_stats(rt, stats_of(columns, case))?;
    println!(rt; "")
}

// The same with two faults, under its name.
fn show(
    rt: &impl Print,
    columns: &mut Columns,
    name: &str,
    one: Fault,
    other: Fault,
) -> io::Result<()> {
    print!(rt; "{name}")?;
    show_case(rt, columns, Case { one, other })
}

// Faults, each alone, under their names, a line each.
fn show_each(rt: &impl Print, columns: &mut Columns, faults: &[(&str, Fault)]) -> io::Result<()> {
    for (name, fault) in faults {
        show(rt, columns, *name, *fault, Fault::None)?;
    }
    Ok(())
}

// A float place with floats of each kind, each alone, a line each under the names of both.
fn show_floats(
    rt: &impl Print,
    columns: &mut Columns,
    place: Place,
    place_name: &str,
    kinds: &[(&str, Kind)],
) -> io::Result<()> {
    for (name, kind) in kinds {
        print!(rt; "{place_name} ")?;
        show(rt, columns, *name, Fault::Float(place, *kind), Fault::None)?;
    }
    Ok(())
}

// Each fault alone, and the numbers at the ends of the ranges that are taken: the call as it should be, lent room and columns that are too short, and lists that are empty
// or of the lengths at the limits.
fn sizes(rt: &impl Print, columns: &mut Columns) -> io::Result<()> {
    show(rt, columns, "good", Fault::None, Fault::None)?;
    show_each(
        rt,
        columns,
        &[
            ("counts short", Fault::CountsShort),
            ("weights short", Fault::WeightsShort),
            ("sums short", Fault::SumsShort),
        ],
    )?;
    show(
        rt,
        columns,
        "logical columns short",
        Fault::ColumnsShort,
        Fault::None,
    )?;
    show_each(
        rt,
        columns,
        &[
            (
                "physical confidences short",
                Fault::PhysicalConfidencesShort,
            ),
            ("match likelihoods short", Fault::MatchesShort),
        ],
    )?;
    show(rt, columns, "logical empty", Fault::Empty, Fault::None)?;
    show(
        rt,
        columns,
        "physical empty",
        Fault::PhysicalEmpty,
        Fault::None,
    )?;
    show_each(
        rt,
        columns,
        &[
            ("1 edge", Fault::Edges1),
            ("8192 edges", Fault::Edges8192),
            ("8193 edges", Fault::Edges8193),
        ],
    )
}

// Edges: row, column, orientation and bit; the same of the physical list. Transforms.
fn edges(rt: &impl Print, columns: &mut Columns) -> io::Result<()> {
    show_each(
        rt,
        columns,
        &[
            ("row 1000001", Fault::RowAbove),
            ("row -1000001", Fault::RowBelow),
            ("column 1000001", Fault::ColAbove),
            ("row -1000000", Fault::RowLeast),
            ("column 1000000", Fault::ColMost),
            ("orientation 2", Fault::Orientation),
            ("bit 2", Fault::Bit),
            ("one of two edges missed", Fault::Missed),
        ],
    )?;
    show(
        rt,
        columns,
        "the only edge missed",
        Fault::Missed,
        Fault::Edges1,
    )?;
    show_each(
        rt,
        columns,
        &[
            ("physical row 1000001", Fault::PhysicalRow),
            ("physical orientation 2", Fault::PhysicalOrientation),
            ("physical confidence 1.5", Fault::PhysicalConfidence),
        ],
    )?;
    show_each(
        rt,
        columns,
        &[
            ("transform 8", Fault::Transform),
            ("no transforms", Fault::NoTransforms),
            ("nine transforms", Fault::NineTransforms),
        ],
    )
}

// Tables, and origins for match statistics.
fn boards(rt: &impl Print, columns: &mut Columns) -> io::Result<()> {
    show_each(
        rt,
        columns,
        &[
            ("horizontal pattern 8", Fault::HorizontalPattern),
            ("vertical pattern 8", Fault::VerticalPattern),
            ("horizontal table 168", Fault::HorizontalTable),
            ("vertical table 168", Fault::VerticalTable),
        ],
    )?;
    show_each(
        rt,
        columns,
        &[
            ("origin row 501", Fault::OriginRow),
            ("origin column 501", Fault::OriginCol),
        ],
    )
}

// Each float place with NaN, both infinities, values out of range, -0 and the value at the end of its range: confidences, the likelihoods of a match and of a mismatch,
// the error limit and the soft margin.
fn floats(rt: &impl Print, columns: &mut Columns) -> io::Result<()> {
    show_floats(
        rt,
        columns,
        Place::Confidence,
        "confidence",
        &[
            ("NaN", Kind::Nan),
            ("-0.5", Kind::Below),
            ("1.5", Kind::Above),
            ("infinity", Kind::Infinity),
            ("-infinity", Kind::MinusInfinity),
            ("-0", Kind::MinusZero),
            ("1", Kind::End),
        ],
    )?;
    show_floats(
        rt,
        columns,
        Place::Match,
        "match",
        &[
            ("NaN", Kind::Nan),
            ("infinity", Kind::Infinity),
            ("-infinity", Kind::MinusInfinity),
            ("above 65536", Kind::Above),
            ("below -65536", Kind::Below),
            ("-0", Kind::MinusZero),
            ("-65536", Kind::End),
        ],
    )?;
    show_floats(
        rt,
        columns,
        Place::Mismatch,
        "mismatch",
        &[
            ("NaN", Kind::Nan),
            ("infinity", Kind::Infinity),
            ("-infinity", Kind::MinusInfinity),
            ("above 65536", Kind::Above),
            ("below -65536", Kind::Below),
            ("-0", Kind::MinusZero),
            ("-65536", Kind::End),
        ],
    )?;
    show_floats(
        rt,
        columns,
        Place::Limit,
        "limit",
        &[
            ("NaN", Kind::Nan),
            ("infinity", Kind::Infinity),
            ("-infinity", Kind::MinusInfinity),
            ("1.5", Kind::Above),
            ("-0.5", Kind::Below),
            ("-0", Kind::MinusZero),
            ("1", Kind::End),
        ],
    )?;
    show_floats(
        rt,
        columns,
        Place::Margin,
        "margin",
        &[
            ("NaN", Kind::Nan),
            ("infinity", Kind::Infinity),
            ("-infinity", Kind::MinusInfinity),
            ("98304", Kind::Above),
            ("-0.5", Kind::Below),
            ("-0", Kind::MinusZero),
            ("65536", Kind::End),
        ],
    )
}

// Two faults of different numbers: the one that comes first in the order 1, 2, 3, 4, 16, 17, 5, 6, 7, 8, 9 is given, over all lists.
fn pairs(rt: &impl Print, columns: &mut Columns) -> io::Result<()> {
    show(
        rt,
        columns,
        "1 and 2: room and lengths",
        Fault::CountsShort,
        Fault::PhysicalConfidencesShort,
    )?;
    show(
        rt,
        columns,
        "2 and 3: lengths and 8193 edges",
        Fault::ColumnsShort,
        Fault::Edges8193,
    )?;
    show(
        rt,
        columns,
        "3 and 4: empty and physical row",
        Fault::Empty,
        Fault::PhysicalRow,
    )?;
    show(
        rt,
        columns,
        "4 and 5: physical row and logical confidence",
        Fault::PhysicalRow,
        Fault::Float(Place::Confidence, Kind::Nan),
    )?;
    show(
        rt,
        columns,
        "17 and 5: logical bit and physical confidence",
        Fault::Bit,
        Fault::PhysicalConfidence,
    )?;
    show(
        rt,
        columns,
        "5 and 6: logical confidence and match",
        Fault::Float(Place::Confidence, Kind::Nan),
        Fault::Float(Place::Match, Kind::Nan),
    )
}

// The same from 6 on.
fn later_pairs(rt: &impl Print, columns: &mut Columns) -> io::Result<()> {
    show(
        rt,
        columns,
        "6 and 7: match and transform",
        Fault::Float(Place::Match, Kind::Nan),
        Fault::Transform,
    )?;
    show(
        rt,
        columns,
        "7 and 8: transform and table",
        Fault::Transform,
        Fault::HorizontalTable,
    )?;
    show(
        rt,
        columns,
        "8 and 9: pattern and limit",
        Fault::VerticalPattern,
        Fault::Float(Place::Limit, Kind::Nan),
    )?;
    show(
        rt,
        columns,
        "8 and 9: table and origin",
        Fault::VerticalTable,
        Fault::OriginRow,
    )?;
    show(
        rt,
        columns,
        "1 and 9: room and limit",
        Fault::WeightsShort,
        Fault::Float(Place::Limit, Kind::Nan),
    )
}

// All cases.
pub(crate) fn show_all(rt: &impl Print) -> io::Result<()> {
    let mut columns = Columns::good();
    sizes(rt, &mut columns)?;
    edges(rt, &mut columns)?;
    boards(rt, &mut columns)?;
    floats(rt, &mut columns)?;
    pairs(rt, &mut columns)?;
    later_pairs(rt, &mut columns)
}
