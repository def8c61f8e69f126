// One list through the engine with tables and through the engine without.
use admission::call::HardCall;
use board::list::{Edges, List};
use board::pattern::Tables;
use locate_answer::LocateAnswer;
use runs::print::{At, print_answer, print_refused};
use std::io;

// All that `locate` answers.
fn print_located(rt: &impl Print, a: LocateAnswer) -> io::Result<()> {
    match a {
        Ok(d) => print!(rt;
            "found {}, hits {}, runner-up {} with {} hits",
            At(d.square),
            d.hits,
            At(d.runner_up),
            d.runner_up_hits,
        ),
        Err(r) => print_refused(rt, r),
    }
}

// Hard decode of the list as both lists; the lent room is long enough for every pole.
fn show_tables<'a>(
    rt: &impl Print,
    rows: &'a [i32],
    cols: &'a [i32],
    orientations: &'a [u8],
    bits: &'a [u8],
    confidences: &'a [f32],
    transforms: &'a [u8],
    h: &'a [u8],
    v: &'a [u8],
    limit: f32,
) -> io::Result<()> {
    let mut counts = [7u32; 6007];
    let mut weights = [7.0f32; 6007];
    print!(rt; "\n  tables: ")?;
    let list = List {
        edges: Edges {
            rows,
            cols,
            orientations,
            bits,
        },
        confidences,
    };
    let call = HardCall {
        logical: list,
        physical: list,
        transforms,
        tables: Tables { h, v },
        error_limit: limit,
    };
    print_answer(
        rt,
        decode_hard::decode_hard(call, &mut counts, &mut weights),
    )
}

// Both answers, under the list's name.
pub(crate) fn show_both<'a>(
    rt: &impl Print,
    rows: &'a [i32],
    cols: &'a [i32],
    orientations: &'a [u8],
    bits: &'a [u8],
    confidences: &'a [f32],
    transforms: &'a [u8],
    h: &'a [u8],
    v: &'a [u8],
    limit: f32,
) -> io::Result<()> {
    show_tables(
        rt,
        rows,
        cols,
        orientations,
        bits,
        confidences,
        transforms,
        h,
        v,
        limit,
    )?;
    print!(rt; "\n  located: ")?;
    let list = List {
        edges: Edges {
            rows,
            cols,
            orientations,
            bits,
        },
        confidences,
    };
    let tables = Tables { h, v };
    print_located(rt, locate::locate(list, transforms, tables, limit))?;
    println!(rt; "")
}
