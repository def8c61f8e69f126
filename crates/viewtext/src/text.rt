// The words and lines of a text file. Words are parted by spaces and tabs; `#` starts a comment that runs to the end of its line. A carriage return counts as a
// blank, so a file with CRLF reads like one without.
ghost use Rattle.std.specs.Prelude.{◌≡◌, ◌==◌, ◌+◌, ◌<◌, ◌≤◌, ◌^◌, ℕ, true, false, min, length, nat_le, slice_index, IfSome, IsNone, count_by};
ghost use Rattle.std.specs.Iterator.{at_most};
ghost use Rattle.viewtext.specs.Text.{blank, line_at, named};

use crate::fault::{Expected, Fault};

// One word of a line, and its place in the file.
#[derive(Clone, Copy)]
pub struct Word<'a> {
    pub text: &'a [u8],
    pub place: usize,
    ghost within: { place + length text.now < 2 ^ 64 },
}

impl Word<'_> {
    // The fault of a file that should have had something else than this word.
    pub(crate) fn fault(&self, expected: Expected) -> Fault
        ensures { (result.place ≡ self.now.place) × (result.expected ≡ expected) }
    {
        Fault {
            place: self.place,
            expected,
        }
    }
}

// Whether a word is empty, so that its line has no more.
pub fn none(word: &Word) -> bool
    ensures { result ≡ nat_le (length word.now.text.now) 0 }
{
    word.text.is_empty()
}

// What is not yet read of one line, without its comment, and its place in the file.
#[derive(Clone, Copy)]
pub struct Line<'a> {
    text: &'a [u8],
    place: usize,
    ghost within: { place + length text.now < 2 ^ 64 },
}

// What is not yet read of a file, and its place.
#[derive(Drop)]
pub(crate) struct Lines<'a> {
    text: &'a [u8],
    place: usize,
    ghost within: { place + length text.now < 2 ^ 64 },
}

// Whether a byte only parts words.
fn is_blank(b: u8) -> bool
    ensures { result ≡ blank b }
{
    matches!(b, b' ' | b'\t' | b'\r')
}

// Whether a byte ends the text of a line: its end, or the start of its comment.
fn ends_text(b: u8) -> bool {
    matches!(b, b'\n' | b'#')
}

// How many bytes stand before the first one that a test finds; all where it finds none.
fn count_before<F: Fn(u8) -> bool>(text: &[u8], is_sought: F) -> usize
    requires { F.IsAlwaysCallable is_sought }
    ensures bound { result ≤ length text.now }
    ensures sought { result < length text.now → F.post is_sought (slice_index text.now result) true }
    ensures others { (k : ℕ) → k < result → F.post is_sought (slice_index text.now k) false }
{
    text.iter()
        .position(|b| is_sought(*b))
        .unwrap_or(text.len())
}

impl<'a> Line<'a> {
    // What follows a place of a file on its line.
    pub fn from_place(file: &'a [u8], place: usize) -> Line<'a>
        ensures { result.place ≡ min place (length file.now) }
    {
        let place = place.min(file.len());
        let (_, rest) = file.split_at(place);
        let (text, _) = rest.split_at(count_before(rest, ends_text));
        Line { text, place }
    }

    // How many bytes of the file stand before what is not yet read.
    pub fn place(&self) -> usize
        ensures { result ≡ self.now.place }
    {
        self.place
    }

    // The next word, which is then read; none where the line has no more.
    pub fn next_word(&mut self) -> Option<Word<'a>>
        ensures on { self.old.place ≤ self.new.place }
        ensures word { IfSome result (λ w. (0 < length w.text.now) × (self.old.place ≤ w.place) × (w.place + length w.text.now ≡ self.new.place)) }
        ensures end { IsNone result → length self.new.text.now ≡ 0 }
    {
        let (_, rest) = self
            .text
            .split_at(count_before(self.text, |b| !is_blank(b)));
        let (text, rest) = rest.split_at(count_before(rest, is_blank));
        let place = self.place + (self.text.len() - rest.len() - text.len());
        *self = Line {
            text: rest,
            place: place + text.len(),
        };
        let word = Word { text, place };
        if none(&word) {
            return None;
        }
        Some(word)
    }

    // Whether the line has no more words.
    pub(crate) fn is_read(&self) -> bool {
        self.text.iter().all(|b| is_blank(*b))
    }

    // Nothing, where the line has no more words; a word more is not what is expected.
    pub(crate) fn end(&mut self, expected: Expected) -> Result<(), Fault> {
        match self.next_word() {
            Some(more) => Err(more.fault(expected)),
            None => Ok(()),
        }
    }
}

impl<'a> Lines<'a> {
    // The lines of a file: after a byte order mark, if there is one.
    pub(crate) fn new(file: &'a [u8]) -> Lines<'a> {
        match file.get(3..) {
            Some(text) if is_name(file, 0, 3, b"\xef\xbb\xbf") => Lines { text, place: 3 },
            _ => Lines {
                text: file,
                place: 0,
            },
        }
    }

    // How many bytes of the file stand before what is not yet read.
    pub(crate) fn place(&self) -> usize {
        self.place
    }

    // The first word of the next line that has one, and what follows it on that line.
    pub(crate) fn next_word(&mut self) -> Option<(Word<'a>, Line<'a>)> {
        for mut line in self {
            if let Some(word) = line.next_word() {
                return Some((word, line));
            }
        }
        None
    }
}

impl<'a> Iterator for Lines<'a> {
    type Item = Line<'a>;

    ghost remaining = { λ s. at_most (length s.text.now) };

    fn next(&mut self) -> Option<Line<'a>> {
        if self.text.is_empty() {
            return None;
        }
        let (text, rest) = self.text.split_at(count_before(self.text, ends_text));
        let (comment, rest) = rest.split_at(count_before(rest, |b| b == b'\n'));
        let line = Line {
            text,
            place: self.place,
        };
        let end = self.place + text.len() + comment.len();
        *self = match rest.split_first() {
            Some((_, rest)) => Lines {
                text: rest,
                place: end + 1,
            },
            None => Lines {
                text: rest,
                place: end,
            },
        };
        Some(line)
    }
}

// How many line feeds a text has.
fn count_feeds(text: &[u8]) -> usize
    ensures value { result ≡ count_by (λ b. b == 10) text.now }
    ensures bound { result ≤ length text.now }
{
    text.iter().filter(|b| **b == b'\n').count()
}

// The number of the line that a place stands in, from 1; 1,000,000,000 is the greatest, which no file reaches.
pub fn line_of(s: &[u8], place: usize) -> u32
    ensures { result ≡ line_at s.now place }
{
    let feeds = count_feeds(&s[..place.min(s.len())]);
    (1 + feeds).min(1000000000) as u32
}

// Whether the bytes from `from` to `to` are the given name.
pub fn is_name(s: &[u8], from: usize, to: usize, name: &[u8]) -> bool
    ensures { result ≡ named s.now from to name.now }
{
    match s.get(from..to) {
        Some(part) => part == name,
        None => false,
    }
}
