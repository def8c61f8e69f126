// The message of a file that is at fault.
use console::argument::Argument;
use console::digits::{put_count, put_number};
use console::message::warn;
use slices::page::Page;
use viewtext::fault::{Expected, Fault};
use viewtext::text::{Line, Word, line_of};

// How many bytes of a word a message shows.
const SHOWN: usize = 40;

// A byte that a terminal can show; a question mark for any other.
fn shown(b: u8) -> u8 {
    if matches!(b, b' '..=b'~') { b } else { b'?' }
}

// A word in quotes, cut where it is long. Its size is told where it is cut, and from 10 bytes on where a table was expected.
fn put_word(page: &mut Page, word: &Word, table: bool) {
    page.put(b"\"");
    for byte in word.text.iter().take(SHOWN) {
        page.put(&[shown(*byte)]);
    }
    let size = word.text.len();
    if size > SHOWN {
        page.put(b"..");
    }
    page.put(b"\"");
    if size > SHOWN || table && size > 9 {
        page.put(b" (");
        put_number(page, size as u64);
        page.put(b" bytes)");
    }
    page.put(b"\n");
}

// What stands at the place of a fault, to the end of the message.
fn put_found(page: &mut Page, file: &[u8], fault: Fault) {
    let table = matches!(fault.expected, Expected::Horizontal | Expected::Vertical);
    let mut line = Line::from_place(file, fault.place);
    match line.next_word() {
        Some(word) => put_word(page, &word, table),
        None if line.place() < file.len() => page.put(b"the end of the line\n"),
        None => page.put(b"the end of the file\n"),
    }
}

// The message of a fault: the file that argument i names, the line, what was expected there and what there is.
pub(crate) fn report(rt: HostRuntime, i: usize, file: &[u8], fault: Fault) {
    let mut page = Page::blank();
    page.put(Argument::read(&rt, i).text());
    let line = line_of(file, fault.place);
    let expected = fault.expected;
    page.put(b", line ");
    put_count(&mut page, line);
    write!(page, ": expected {expected}; found ");
    put_found(&mut page, file, fault);
    warn(rt, &page);
}

// The message of a file that is too large.
pub(crate) fn report_size(rt: HostRuntime, i: usize, most: usize) {
    let mut page = Page::blank();
    page.put(Argument::read(&rt, i).text());
    page.put(b": expected a file of at most ");
    put_number(&mut page, most as u64);
    page.put(b" bytes\n");
    warn(rt, &page);
}
