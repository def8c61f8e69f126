// Cells in lent room, compared with those that a file holds: all counts, then all weights, then all sums.
ghost use Rattle.std.specs.Prelude.{◌≤◌, length};

use console::number::bits_of;
use std::io;
use std::io::Read;
use wordfile::words::Words;

// A cell that a file holds.
pub(crate) trait Cell {
    // Whether it is the next that the file holds.
    fn is_next<F: Read + Drop>(&self, words: &mut Words<F>) -> io::Result<bool>;
}

// A count, which is a word.
impl Cell for u32 {
    fn is_next<F: Read + Drop>(&self, words: &mut Words<F>) -> io::Result<bool> {
        Ok(words.next_word()? == *self)
    }
}

// A weight, by its bits.
impl Cell for f32 {
    fn is_next<F: Read + Drop>(&self, words: &mut Words<F>) -> io::Result<bool> {
        Ok(words.next_word()? == bits_of(*self))
    }
}

// A sum, which is two words.
impl Cell for i64 {
    fn is_next<F: Read + Drop>(&self, words: &mut Words<F>) -> io::Result<bool> {
        let high = words.next_word()?;
        let low = words.next_word()?;
        Ok(whole(high, low) == *self)
    }
}

// A sum of two words, the higher of which has the sign as its highest bit.
fn whole(high: u32, low: u32) -> i64 {
    let size = (u64::from(high % 2147483648) * 4294967296 + u64::from(low)) as i64;
    if high < 2147483648 { size } else { -size }
}

// How many cells differ from those that the file holds.
pub(crate) fn count_differences<C: Cell, F: Read + Drop>(
    words: &mut Words<F>,
    cells: &[C],
) -> io::Result<u32>
    requires { length cells.now ≤ 10009 }
{
    let mut differ = 0;
    for cell in cells {
        if !cell.is_next(words)? {
            differ += 1;
        }
    }
    Ok(differ)
}
