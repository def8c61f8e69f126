// The entries of a file, one after the other: two pattern tables, a list with its likelihoods, a transform, and the cells of its class tables.
ghost use Rattle.std.specs.Prelude.{◌≤◌};

use crate::build::{Case, Cells, build_columns};
use crate::compared::count_differences;
use crate::tally::{CELLS, DIFFER, LISTS, REFUSED, add, show};
use std::env::Env;
use std::io;
use std::io::Read;
use std::rt::Files;
use wordfile::named::open_named;
use wordfile::words::{Words, float, octet};

// How many cells both sides have; 6,007, more than any pole has, for tables that are too long.
fn cells_of(h: usize, v: usize) -> usize
    ensures { result ≤ 6007 }
{
    if h < 1000 && v < 1000 {
        return 3 * h + 3 * v;
    }
    6007
}

// The first n cells of each kind compared with those of the file: a line where some differ. Those of a list that was refused are read past.
fn compare<F: Read + Drop>(
    rt: &impl Print,
    words: &mut Words<F>,
    at: u32,
    n: usize,
    refused: u32,
    cells: &Cells,
    tally: &mut [u32; 516],
) -> io::Result<()>
    requires { n ≤ 6007 }
{
    let counts = count_differences(words, &cells.counts[..n])?;
    let weights = count_differences(words, &cells.weights[..n])?;
    let sums = count_differences(words, &cells.sums[..n])?;
    if refused != 0 {
        println!(rt; "entry {at} is refused with {refused}")?;
        add(tally, REFUSED, 1);
        return Ok(());
    }
    add(tally, CELLS, n as u32);
    if counts != 0 || weights != 0 || sums != 0 {
        println!(rt; "entry {at} differs in {counts} counts, {weights} weights, {sums} sums")?;
        add(tally, DIFFER, 1);
    }
    Ok(())
}

// One entry: it is read, its tables are built, and their cells compared. The room holds what the entry before left in it.
fn entry<F: Read + Drop>(
    rt: &impl Print,
    words: &mut Words<F>,
    at: u32,
    case: &mut Case,
    cells: &mut Cells,
    tally: &mut [u32; 516],
) -> io::Result<()> {
    case.h.read(words, octet)?;
    case.v.read(words, octet)?;
    case.list.read(words)?;
    case.matches.read(words, float)?;
    case.mismatches.read(words, float)?;
    case.transform = octet(words.next_word()?);
    let refused = build_columns(case, cells);
    let length = case.h.as_slice().len();
    let n = cells_of(length, case.v.as_slice().len());
    add(tally, LISTS, 1);
    add(tally, length, 1);
    compare(rt, words, at, n, refused, cells, tally)
}

// All entries of an open file.
fn run<F: Read + Drop>(rt: &impl Print, file: F) -> io::Result<()> {
    let mut words = Words::new(file);
    let mut case = Case::new();
    let mut cells = Cells::new();
    let mut tally = [0u32; 516];
    for at in 0..words.next_word()? {
        entry(rt, &mut words, at, &mut case, &mut cells, &mut tally)?;
    }
    show(rt, &tally)
}

// The file that argument i names.
pub(crate) fn run_file<R: Print + Env + Files>(rt: &R, i: usize) -> io::Result<()> {
    run(rt, open_named(rt, i)?)
}
