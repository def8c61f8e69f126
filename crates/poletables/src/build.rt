// The class tables and the likelihood sums of one list under one transform, in lent room.
use admission::call::{HardCall, SoftCall};
use board::list::{Edges, List};
use board::pattern::Tables;
use likelihood::Likelihoods;
use wordfile::columns;
use wordfile::columns::Column;

// What tables are built of: the two pattern tables, a list with its likelihoods, and a transform.
#[derive(Drop)]
pub struct Case {
    pub h: Column<u8>,
    pub v: Column<u8>,
    pub list: columns::List,
    pub matches: Column<f32>,
    pub mismatches: Column<f32>,
    pub transform: u8,
}

impl Case {
    // Columns with no words.
    pub(crate) fn new() -> Case {
        Case {
            h: Column::new(0),
            v: Column::new(0),
            list: columns::List::new(),
            matches: Column::new(0.0),
            mismatches: Column::new(0.0),
            transform: 0,
        }
    }
}

// Room for the cells of the longest pole's tables, and some more.
#[derive(Drop)]
pub struct Cells {
    pub counts: [u32; 6007],
    pub weights: [f32; 6007],
    pub sums: [i64; 10009],
}

impl Cells {
    // Room that holds 7.
    pub(crate) fn new() -> Cells {
        Cells {
            counts: [7; 6007],
            weights: [7.0; 6007],
            sums: [7; 10009],
        }
    }
}

// Builds both where the checks of soft decode take the list, the transform, the tables and the room: 0, else the refusal's number, and nothing is built.
fn build<'a>(
    rows: &'a [i32],
    cols: &'a [i32],
    orientations: &'a [u8],
    bits: &'a [u8],
    confidences: &'a [f32],
    matches: &'a [f32],
    mismatches: &'a [f32],
    transform: u8,
    h: &'a [u8],
    v: &'a [u8],
    counts: &mut [u32],
    weights: &mut [f32],
    sums: &mut [i64],
) -> u32 {
    let transforms = [transform];
    let list = List {
        edges: Edges {
            rows,
            cols,
            orientations,
            bits,
        },
        confidences,
    };
    let hard = HardCall {
        logical: list,
        physical: list,
        transforms: &transforms,
        tables: Tables { h, v },
        error_limit: 0.0,
    };
    let likelihoods = Likelihoods {
        matches,
        mismatches,
    };
    let call = SoftCall {
        hard,
        likelihoods,
        soft_margin: 0.0,
    };
    let admitted = soft_admission::soft_admission(call, counts.len(), weights.len(), sums.len());
    match admitted {
        Err(refusal) => refusal.number,
        Ok(()) => {
            let list = List {
                edges: Edges {
                    rows,
                    cols,
                    orientations,
                    bits,
                },
                confidences,
            };
            let tables = Tables { h, v };
            tables::build::build_tables(list, transform, tables, counts, weights);
            let edges = Edges {
                rows,
                cols,
                orientations,
                bits,
            };
            let likelihoods = Likelihoods {
                matches,
                mismatches,
            };
            let tables = Tables { h, v };
            sums::sums::build_sums(edges, likelihoods, transform, tables, sums);
            0
        }
    }
}

// The same of columns that a file gave.
pub(crate) fn build_columns(case: &Case, cells: &mut Cells) -> u32 {
    build(
        case.list.rows.as_slice(),
        case.list.cols.as_slice(),
        case.list.orientations.as_slice(),
        case.list.bits.as_slice(),
        case.list.confidences.as_slice(),
        case.matches.as_slice(),
        case.mismatches.as_slice(),
        case.transform,
        case.h.as_slice(),
        case.v.as_slice(),
        &mut cells.counts,
        &mut cells.weights,
        &mut cells.sums,
    )
}
