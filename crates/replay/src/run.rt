// The entries of a file, one after the other. An entry is a kind and what it holds: 0 two pattern tables for the calls that follow, 1 hard decode, 2 soft decode,
// 3 match statistics of the physical list, 4 hard selection on the logical list before the gate, 5 exact decode, 6 the logical list located without tables.
use crate::calls::{Case, Room, Settings, call};
use crate::tally::{compare, show};
use std::env::Env;
use std::io;
use std::io::Read;
use std::rt::Files;
use wordfile::named::open_named;
use wordfile::words::{Words, float, octet};

// How much room the call is lent.
fn read_room<F: Read + Drop>(words: &mut Words<F>) -> io::Result<Room> {
    Ok(Room {
        counts: words.next_word()? as usize,
        weights: words.next_word()? as usize,
        sums: words.next_word()? as usize,
    })
}

// Limit, margin, transform, row and column.
fn read_settings<F: Read + Drop>(words: &mut Words<F>) -> io::Result<Settings> {
    Ok(Settings {
        limit: float(words.next_word()?),
        margin: float(words.next_word()?),
        transform: octet(words.next_word()?),
        row: words.next_word()?,
        col: words.next_word()?,
    })
}

// The seventeen words of an answer.
fn read_answer<F: Read + Drop>(words: &mut Words<F>) -> io::Result<[u32; 17]> {
    let mut answer = [0; 17];
    for word in &mut answer {
        *word = words.next_word()?;
    }
    Ok(answer)
}

// A call: it is read, made, and its answer compared with the stored one.
fn entry<F: Read + Drop>(
    rt: &impl Print,
    words: &mut Words<F>,
    case: &mut Case,
    at: u32,
    kind: u32,
    tally: &mut [u32; 132],
) -> io::Result<()> {
    let room = read_room(words)?;
    case.logical.read(words)?;
    case.physical.read(words)?;
    case.matches.read(words, float)?;
    case.mismatches.read(words, float)?;
    case.transforms.read(words, octet)?;
    let settings = read_settings(words)?;
    let stored = read_answer(words)?;
    let got = call(kind, case, settings, room);
    compare(rt, at, kind, stored, got, tally)
}

// One entry: two tables, or a call.
fn step<F: Read + Drop>(
    rt: &impl Print,
    words: &mut Words<F>,
    case: &mut Case,
    at: u32,
    tally: &mut [u32; 132],
) -> io::Result<()> {
    match words.next_word()? {
        0 => {
            case.h.read(words, octet)?;
            case.v.read(words, octet)
        }
        kind => entry(rt, words, case, at, kind, tally),
    }
}

// All entries of an open file.
fn run<F: Read + Drop>(rt: &impl Print, file: F) -> io::Result<()> {
    let mut words = Words::new(file);
    let mut case = Case::new();
    let mut tally = [0u32; 132];
    for at in 0..words.next_word()? {
        step(rt, &mut words, &mut case, at, &mut tally)?;
    }
    show(rt, &tally)
}

// The file that argument i names.
pub(crate) fn run_file<R: Print + Env + Files>(rt: &R, i: usize) -> io::Result<()> {
    run(rt, open_named(rt, i)?)
}
