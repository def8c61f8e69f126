// What was compared. A tally has a place for each length of a horizontal table, how many lists were compared with one, and after them: place 512 lists, 513 lists that
// differ, 514 lists that were refused, 515 cells.
use std::io;

pub(crate) const LISTS: usize = 512;

pub(crate) const DIFFER: usize = 513;

pub(crate) const REFUSED: usize = 514;

pub(crate) const CELLS: usize = 515;

// n more at a place.
pub(crate) fn add(tally: &mut [u32; 516], at: usize, n: u32) {
    if at < 516 {
        tally[at] = std::num::wrapping_add_u32(tally[at], n);
    }
}

// All lengths of a horizontal table of which there are lists, and the totals.
pub(crate) fn show(rt: &impl Print, tally: &[u32; 516]) -> io::Result<()> {
    for (length, lists) in tally.iter().take(LISTS).enumerate() {
        if *lists != 0 {
            println!(rt; "horizontal tables of {length}: {lists} lists")?;
        }
    }
    println!(rt;
        "{} lists, {} cells with counts, weights and sums, {} lists differ, {} are refused",
        tally[LISTS], tally[CELLS], tally[DIFFER], tally[REFUSED],
    )
}
