// What was compared, and what differs. A tally has eighteen places for each kind (place 18 · kind + refusal number, 0 for found), the first eighteen of them for sums:
// 0 cases, 1 cases that differ, 2 cases in which the Rust does not tell 13 from 15.
use console::digits::{put_count, put_word};
use slices::page::Page;
use std::io;

// One more at a place.
fn bump(tally: &mut [u32; 132], at: usize) {
    if at < 132 {
        tally[at] = std::num::wrapping_add_u32(tally[at], 1);
    }
}

// The name of a word of an answer.
fn name_of(i: usize) -> &'static str {
    match i {
        0 => "refusal",
        1 => "transform",
        2 => "row",
        3 => "column",
        4 => "hits",
        5 => "edges",
        6 => "weighted score",
        7 => "rate",
        8 => "mean",
        9 => "best score",
        10 => "runner-up's score",
        11 => "margin",
        12 => "runner-up's transform",
        13 => "runner-up's row",
        14 => "runner-up's column",
        15 => "list",
        _ => "position",
    }
}

// The same of exact decode's answer.
fn exact_name_of(i: usize) -> &'static str {
    match i {
        0 => "refusal",
        1 => "transform",
        2 => "row",
        3 => "column",
        4 => "hits",
        5 => "edges",
        6 => "weight's lower word",
        7 => "weight's upper word",
        8 => "total's lower word",
        9 => "total's upper word",
        10 => "rate",
        11 => "runner-up's hits",
        12 => "runner-up's transform",
        13 => "runner-up's row",
        14 => "runner-up's column",
        15 => "runner-up's weight's lower word, or list",
        _ => "runner-up's weight's upper word, or position",
    }
}

// A word that differs, by its name.
fn print_difference(
    rt: &impl Print,
    at: u32,
    kind: u32,
    i: usize,
    theirs: u32,
    ours: u32,
) -> io::Result<()> {
    let name = if kind == 5 {
        exact_name_of(i)
    } else {
        name_of(i)
    };
    let mut page = Page::blank();
    write!(page, "entry {at} differs in {name}: stored ");
    put_word(&mut page, theirs);
    page.put(b", ours ");
    put_word(&mut page, ours);
    page.put(b"\n");
    rt.write_all(page.text())
}

// Whether no word differs; each that does is written.
fn same_words(
    rt: &impl Print,
    at: u32,
    kind: u32,
    theirs: [u32; 17],
    ours: [u32; 17],
) -> io::Result<bool> {
    let mut same = true;
    for i in 0..17 {
        let x = theirs[i];
        let y = ours[i];
        if x != y {
            print_difference(rt, at, kind, i, x, y)?;
            same = false;
        }
    }
    Ok(same)
}

// The stored answer, where it says 13 or 15 (1315) and ours is one of them: ours.
fn settled(theirs: u32, ours: u32) -> u32 {
    if theirs == 1315 {
        if ours == 13 || ours == 15 {
            return ours;
        }
    }
    theirs
}

// The place of a kind and a refusal number; 131 where there is none.
fn place_of(kind: u32, number: u32) -> usize {
    if kind < 7 {
        if number < 18 {
            return (kind * 18 + number) as usize;
        }
    }
    131
}

// A call's stored answer and ours.
pub(crate) fn compare(
    rt: &impl Print,
    at: u32,
    kind: u32,
    theirs: [u32; 17],
    ours: [u32; 17],
    tally: &mut [u32; 132],
) -> io::Result<()> {
    let first = theirs[0];
    let number = settled(first, ours[0]);
    let mut stored = theirs;
    stored[0] = number;
    if number != first {
        bump(tally, 2);
    }
    bump(tally, 0);
    bump(tally, place_of(kind, number));
    if !same_words(rt, at, kind, stored, ours)? {
        bump(tally, 1);
    }
    Ok(())
}

// The count at a place; 0 where there is none.
fn count_at(tally: &[u32; 132], at: usize) -> u32 {
    if at < 132 { tally[at] } else { 0 }
}

// The name of a kind of call.
fn kind_name(kind: u32) -> &'static str {
    match kind {
        0 => "tables",
        1 => "hard",
        2 => "soft",
        3 => "statistics",
        4 => "selection",
        5 => "exact",
        _ => "located",
    }
}

// One kind of call: how many were found, and how many refused with each number, where there are any.
fn show_kind(rt: &impl Print, tally: &[u32; 132], kind: u32) -> io::Result<()> {
    let name = kind_name(kind);
    let mut page = Page::blank();
    write!(page, "{name}: ");
    put_count(&mut page, count_at(tally, place_of(kind, 0)));
    page.put(b" found");
    for number in 1..18u32 {
        let count = count_at(tally, place_of(kind, number));
        if count != 0 {
            page.put(b", ");
            put_count(&mut page, count);
            page.put(b" refused with ");
            put_count(&mut page, number);
        }
    }
    page.put(b"\n");
    rt.write_all(page.text())
}

// All kinds, and the sums.
pub(crate) fn show(rt: &impl Print, tally: &[u32; 132]) -> io::Result<()> {
    for kind in 1..7u32 {
        show_kind(rt, tally, kind)?;
    }
    let mut page = Page::blank();
    put_count(&mut page, tally[2]);
    page.put(b" cases are stored as 13 or 15\n");
    put_count(&mut page, tally[0]);
    page.put(b" cases, ");
    put_count(&mut page, tally[1]);
    page.put(b" differ\n");
    rt.write_all(page.text())
}
