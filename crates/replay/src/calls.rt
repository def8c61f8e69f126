// One call of the library, of columns that a file gave, in room of the lengths that it asks for. The room holds 7 before.
use crate::answers::{
    words_of, words_of_exact, words_of_located, words_of_selection, words_of_stats,
};
use crate::selection::select;
use admission::call::{HardCall, SoftCall};
use answer::Square;
use board::list::Edges;
use board::pattern::Tables;
use likelihood::Likelihoods;
use slices::part::front_mut;
use wordfile::columns::{Column, List};

// How much room a call is lent: `weights` is of f32, and for exact decode of u64.
#[derive(Clone, Copy)]
pub struct Room {
    pub counts: usize,
    pub weights: usize,
    pub sums: usize,
}

// The columns that a call is made on: the two tables, both lists, the likelihoods of the physical one, and the transforms.
#[derive(Drop)]
pub struct Case {
    pub h: Column<u8>,
    pub v: Column<u8>,
    pub logical: List,
    pub physical: List,
    pub matches: Column<f32>,
    pub mismatches: Column<f32>,
    pub transforms: Column<u8>,
}

impl Case {
    // Columns with no words.
    pub(crate) fn new() -> Case {
        Case {
            h: Column::new(0),
            v: Column::new(0),
            logical: List::new(),
            physical: List::new(),
            matches: Column::new(0.0),
            mismatches: Column::new(0.0),
            transforms: Column::new(0),
        }
    }

    // As hard decode takes it, and exact decode.
    fn hard(&self, limit: f32) -> HardCall<'_> {
        HardCall {
            logical: list_of(&self.logical),
            physical: list_of(&self.physical),
            transforms: self.transforms.as_slice(),
            tables: self.tables(),
            error_limit: limit,
        }
    }

    // As soft decode takes it.
    fn soft(&self, limit: f32, margin: f32) -> SoftCall<'_> {
        SoftCall {
            hard: self.hard(limit),
            likelihoods: Likelihoods {
                matches: self.matches.as_slice(),
                mismatches: self.mismatches.as_slice(),
            },
            soft_margin: margin,
        }
    }

    // The two pattern tables.
    fn tables(&self) -> Tables<'_> {
        Tables {
            h: self.h.as_slice(),
            v: self.v.as_slice(),
        }
    }
}

// The columns of a list, as the library takes them.
fn list_of(list: &List) -> board::list::List<'_> {
    board::list::List {
        edges: Edges {
            rows: list.rows.as_slice(),
            cols: list.cols.as_slice(),
            orientations: list.orientations.as_slice(),
            bits: list.bits.as_slice(),
        },
        confidences: list.confidences.as_slice(),
    }
}

// The error limit, the soft margin, and the placing for match statistics.
#[derive(Clone, Copy)]
pub struct Settings {
    pub limit: f32,
    pub margin: f32,
    pub transform: u8,
    pub row: u32,
    pub col: u32,
}

// A length that a file gave, as the number that an answer holds.
fn counted(n: usize) -> u32 {
    n.min(8194) as u32
}

// Hard decode.
fn hard_call(case: &Case, limit: f32, room: Room) -> [u32; 17] {
    let mut counts = [7u32; 6007];
    let mut weights = [7.0f32; 6007];
    let answer = decode_hard::decode_hard(
        case.hard(limit),
        front_mut(&mut counts, room.counts),
        front_mut(&mut weights, room.weights),
    );
    words_of(ten_fields::any_of_hard(answer))
}

// Exact decode.
fn exact_call(case: &Case, limit: f32, room: Room) -> [u32; 17] {
    let mut counts = [7u32; 6007];
    let mut units = [7u64; 6007];
    let answer = decode_exact::decode_exact(
        case.hard(limit),
        front_mut(&mut counts, room.counts),
        front_mut(&mut units, room.weights),
    );
    words_of_exact(answer)
}

// The logical list located without tables: no room is lent.
fn locate_call(case: &Case, limit: f32) -> [u32; 17] {
    let call = case.hard(limit);
    words_of_located(locate::locate(call.logical, call.transforms, call.tables, limit))
}

// Soft decode.
fn soft_call(case: &Case, limit: f32, margin: f32, room: Room) -> [u32; 17] {
    let mut counts = [7u32; 6007];
    let mut weights = [7.0f32; 6007];
    let mut sums = [7i64; 10009];
    let answer = decode_soft::decode_soft(
        case.soft(limit, margin),
        front_mut(&mut counts, room.counts),
        front_mut(&mut weights, room.weights),
        front_mut(&mut sums, room.sums),
    );
    words_of(ten_fields::any_of_soft(answer))
}

// Match statistics of the physical list.
fn stats_call(case: &Case, s: Settings) -> [u32; 17] {
    let square = Square {
        transform: s.transform,
        row: s.row,
        col: s.col,
    };
    words_of_stats(stats::stats::match_stats(list_of(&case.physical), square, case.tables()))
}

// Hard selection on the logical list before the gate.
fn selection_call(case: &Case, limit: f32, room: Room) -> [u32; 17] {
    let mut counts = [7u32; 6007];
    let mut weights = [7.0f32; 6007];
    let transforms = case.transforms.as_slice();
    let answer = select(
        case.hard(limit),
        front_mut(&mut counts, room.counts),
        front_mut(&mut weights, room.weights),
    );
    words_of_selection(
        answer,
        transforms,
        counted(case.logical.rows.as_slice().len()),
    )
}

// The call's answer, by its kind: 1 hard decode, 2 soft decode, 3 match statistics of the physical list, 5 exact decode, 6 the logical list located without tables, else hard selection
// on the logical list before the gate.
pub(crate) fn call(kind: u32, case: &Case, s: Settings, room: Room) -> [u32; 17] {
    match kind {
        1 => hard_call(case, s.limit, room),
        2 => soft_call(case, s.limit, s.margin, room),
        3 => stats_call(case, s),
        5 => exact_call(case, s.limit, room),
        6 => locate_call(case, s.limit),
        _ => selection_call(case, s.limit, room),
    }
}
