// The picture's file: an earlier picture is removed first, and a new one is written beside its place and then renamed.
use crate::picture::{Head, Picture, Rows};
use crate::shown::Shown;
use console::argument::Argument;
use console::files::{create_new, fail, open, read_full, remove, rename};
use console::message::warn;
use slices::page::Page;
use std::fs::File;
use std::io;
use std::io::{ErrorKind, Write};
use viewtext::text::is_name;
use viewtext::view_file::Extent;

// A page written to a new file beside the one that is named, which then takes its place; false after a message where that fails. The new file is made only where
// none of its name is, so it belongs to this run alone; then nothing is left behind.
fn save(rt: HostRuntime, name: &[u8], beside: &[u8], page: &Page) -> bool {
    match create_new(&rt, beside) {
        Ok(file) => match place(rt, file, name, beside, page) {
            Ok(()) => true,
            Err(e) => {
                fail(rt, name, e);
                let _ = remove(&rt, beside);
                false
            }
        },
        Err(e) => {
            fail(rt, beside, e);
            false
        }
    }
}

// A page written to a new file, which then takes its place.
fn place(rt: HostRuntime, file: File, name: &[u8], beside: &[u8], page: &Page) -> io::Result<()> {
    fill(file, page)?;
    rename(&rt, beside, name)
}

// A page written to a file, which is closed. All of it is asked to be on the disk first, since an error of closing is told to nobody.
fn fill(mut file: File, page: &Page) -> io::Result<()> {
    file.write_all(page.text())?;
    file.sync_all()
}

// The name of the file beside the picture that argument i names.
fn beside(rt: HostRuntime, i: usize) -> Page {
    let mut name = Page::blank();
    name.put(Argument::read(&rt, i).text());
    name.put(b".part");
    name
}

// The picture of a found answer, on a board of a pole's length, in the file that argument i names; false after a message where it cannot be written.
pub fn draw(rt: HostRuntime, i: usize, shown: Shown, extent: Extent, length: usize) -> bool {
    let mut page = Page::blank();
    let picture = Picture {
        shown,
        extent,
        rows: Rows::of_pole(length),
    };
    write!(page, "{picture}");
    let name = Argument::read(&rt, i);
    let beside = beside(rt, i);
    page.is_whole() && beside.is_whole() && save(rt, name.text(), beside.text(), &page)
}

// Whether a text begins as the picture of a board of a pole's length does.
fn begins(text: &[u8], length: usize) -> bool {
    let mut page = Page::blank();
    write!(page, "{}", Head(Rows::of_pole(length)));
    is_name(text, 0, page.text().len(), page.text())
}

// Whether an open file is empty or begins as every picture does.
fn is_drawn(file: &mut File) -> bool {
    let mut first = [0u8; 4096];
    let k = read_full(file, &mut first);
    k == 0 || (4..501usize).any(|length| begins(&first, length))
}

// The message of a file that the picture would take the place of.
fn report_other(rt: HostRuntime, i: usize) {
    let mut page = Page::blank();
    page.put(Argument::read(&rt, i).text());
    page.put(
        b": this is no picture of samburext's and is left as it is; give --map another name\n",
    );
    warn(rt, &page);
}

// Whether no file stands where the picture is written before it is renamed; a message where one does, which is left as it is.
fn is_free(rt: HostRuntime, i: usize) -> bool {
    let name = beside(rt, i);
    match open(&rt, name.text()) {
        Ok(_) => {
            report_taken(rt, name);
            false
        }
        Err(e) => is_missing(rt, name.text(), e),
    }
}

// Whether a file that could not be opened is not there; a message where it is.
fn is_missing(rt: HostRuntime, name: &[u8], e: io::Error) -> bool {
    let missing = e.kind() == ErrorKind::NotFound;
    if !missing {
        fail(rt, name, e);
    }
    missing
}

// The message of a file that stands where the picture is written before it is renamed.
fn report_taken(rt: HostRuntime, mut name: Page) {
    name.put(
        b": another run is writing this picture, or the file is not samburext's; it is left as it is. Remove it, or give --map another name\n",
    );
    warn(rt, &name);
}

// The picture that an earlier run left in the file that argument i names is removed, so that a picture which is there belongs to this run;
// false after a message where it is there and cannot be removed, or where the file is no such picture: a view or a board is never removed.
fn is_forgotten(rt: HostRuntime, i: usize) -> bool {
    let name = Argument::read(&rt, i);
    match open(&rt, name.text()) {
        Ok(file) => is_removed(rt, file, i, name.text()),
        Err(e) => is_missing(rt, name.text(), e),
    }
}

// Whether an open file of a name, that of argument i, is a picture and was removed; a message where not.
fn is_removed(rt: HostRuntime, mut file: File, i: usize, name: &[u8]) -> bool {
    if !is_drawn(&mut file) {
        report_other(rt, i);
        return false;
    }
    match remove(&rt, name) {
        Ok(()) => true,
        Err(e) => {
            fail(rt, name, e);
            false
        }
    }
}

// Whether the picture that argument i names can be drawn: the place beside it is free, and an earlier picture is removed. Where the place is taken, nothing is touched.
pub fn is_ready(rt: HostRuntime, i: usize) -> bool {
    is_free(rt, i) && is_forgotten(rt, i)
}
