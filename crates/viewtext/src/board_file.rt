// A board: its two pattern tables, as its file gives them. The first line has the patterns of the horizontal edges, digits from 0 to 7, as many as the pole's length:
// 167 on the flat board. The second line has those of the vertical edges, 167 on every board.
ghost use Rattle.std.specs.Prelude.{◌≡◌, ◌<◌, ◌≤◌, true, false, length, take, IfOk};
ghost use Rattle.ranges.specs.Ranges.{pole_length};
ghost use Rattle.viewtext.specs.Board.{Patterns};
ghost use Rattle.viewtext.specs.Lengths.{is_length};

use crate::fault::{Expected, Fault};
use crate::text::{Line, Lines, Word};
use ranges::pole_length;

// A board that was read: room for the longest pole's table, the table of the vertical edges, and the pole's length.
#[derive(Clone, Copy)]
pub struct Board {
    horizontal: [u8; 500],
    vertical: [u8; 167],
    length: usize,
    ghost pole: { pole_length length ≡ true },
    ghost horizontal_patterns: { Patterns horizontal },
    ghost vertical_patterns: { Patterns vertical },
}

impl Board {
    // The board that a file gives, or where the file is first at fault.
    #[tactic(auto, unfolding(crate::specs::Lengths::is_length))]
    pub fn read(file: &[u8]) -> Result<Board, Fault>
        ensures whole { IfOk result (λ b. pole_length b.length ≡ true) }
        ensures patterns { IfOk result (λ b. Patterns b.horizontal × Patterns b.vertical) }
    {
        let mut lines = Lines::new(file);
        let (horizontal, rest) = next_table(&mut lines, Expected::Horizontal)?;
        if !is_length(horizontal.text.len(), false) {
            return Err(horizontal.fault(Expected::Horizontal));
        }
        only_patterns(horizontal, rest)?;
        let (vertical, rest) = next_table(&mut lines, Expected::Vertical)?;
        if !is_length(vertical.text.len(), true) {
            return Err(vertical.fault(Expected::Vertical));
        }
        only_patterns(vertical, rest)?;
        if let Some((more, _)) = lines.next_word() {
            return Err(more.fault(Expected::FileEnd));
        }
        Ok(Board {
            horizontal: horizontal_of(horizontal.text),
            vertical: vertical_of(vertical.text),
            length: horizontal.text.len(),
        })
    }

    // The length of its pole.
    pub fn length(&self) -> usize
        ensures value { result ≡ self.now.length }
        ensures pole { pole_length result ≡ true }
    {
        self.length
    }

    // The patterns of its horizontal edges.
    pub fn horizontal(&self) -> &[u8]
        ensures value { result.now ≡ take self.now.length self.now.horizontal }
    {
        &self.horizontal[..self.length]
    }

    // The patterns of its vertical edges.
    pub fn vertical(&self) -> &[u8]
        ensures { result.now ≡ self.now.vertical }
    {
        &self.vertical
    }
}

// Whether the second table, or the first, can have this length.
#[tactic(auto, unfolding(crate::specs::Lengths::is_length))]
fn is_length(n: usize, second: bool) -> bool
    ensures { result ≡ is_length second n }
{
    if second { n == 167 } else { pole_length(n) }
}

// The word that the next line of a board's file has, a table's digits, and what follows it on its line; `table` is what is expected where there is none.
fn next_table<'a>(lines: &mut Lines<'a>, table: Expected) -> Result<(Word<'a>, Line<'a>), Fault> {
    lines.next_word().ok_or(Fault {
        place: lines.place(),
        expected: table,
    })
}

// Nothing, where a word has digits of patterns alone and its line ends after it.
fn only_patterns(word: Word, mut rest: Line) -> Result<(), Fault> {
    if let Some(i) = word.text.iter().position(|b| !is_pattern(*b)) {
        return Err(Fault {
            place: word.place + i,
            expected: Expected::Digit,
        });
    }
    rest.end(Expected::LineEnd)
}

// Whether a byte is the digit of a pattern.
fn is_pattern(byte: u8) -> bool {
    matches!(byte, b'0'..=b'7')
}

// The pattern that a digit at a place stands for, which is its lowest bits; 0 past the last digit.
fn pattern_at(digits: &[u8], i: usize) -> u8
    ensures { result < 8 }
{
    digits.get(i).map_or(0, |digit| digit % 8)
}

// The patterns of a table's digits, which there is room for.
fn patterns_of<const N: usize>(digits: &[u8]) -> [u8; N]
    requires { length digits.now ≤ N }
    ensures { Patterns result }
{
    let mut patterns = [0; N];
    for (i, pattern) in patterns.iter_mut().enumerate() {
        *pattern = pattern_at(digits, i);
    }
    patterns
}

// The patterns of the first table's digits, one for each, with 0 behind them where the pole is not the longest.
fn horizontal_of(digits: &[u8]) -> [u8; 500]
    requires { is_length false (length digits.now) ≡ true }
    ensures { Patterns result }
{
    patterns_of(digits)
}

// The patterns of the second table's digits, one for each.
fn vertical_of(digits: &[u8]) -> [u8; 167]
    requires { is_length true (length digits.now) ≡ true }
    ensures { Patterns result }
{
    patterns_of(digits)
}
