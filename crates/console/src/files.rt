// Files by the names that a program's arguments give, read and made through std, and the messages of what fails. A name is bytes; std opens those that are UTF-8.
ghost use Rattle.std.specs.Prelude.{◌≤◌, length};

use crate::message::warn;
use slices::page::Page;
use std::fs::File;
use std::io::{Error, ErrorKind, Read, Write};
use std::rt::Files;

// The path that a name is.
fn path_of(name: &[u8]) -> std::io::Result<&str> {
    match str::from_utf8(name) {
        Ok(path) => Ok(path),
        Err(_) => Err(Error::new(ErrorKind::InvalidFilename, "the name is not UTF-8")),
    }
}

// The file of a name, opened for reading.
pub fn open<R: Files>(rt: &R, name: &[u8]) -> std::io::Result<R::File> {
    std::fs::open(rt, path_of(name)?)
}

// A new file of a name; an error where there is one of that name.
pub fn create_new<R: Files>(rt: &R, name: &[u8]) -> std::io::Result<R::File> {
    File::create_new(rt, path_of(name)?)
}

// A file given another name, in the place of what has it.
pub fn rename<R: Files>(rt: &R, from: &[u8], to: &[u8]) -> std::io::Result<()> {
    std::fs::rename(rt, path_of(from)?, path_of(to)?)
}

// The file of a name removed.
pub fn remove<R: Files>(rt: &R, name: &[u8]) -> std::io::Result<()> {
    std::fs::remove_file(rt, path_of(name)?)
}

// How many bytes one read puts at the start of a buffer; 0 at the end, or where it fails.
fn read_some<R: Read>(file: &mut R, buf: &mut [u8]) -> usize
    ensures { result ≤ length buf.new }
{
    match file.read(buf) {
        Ok(n) => n,
        Err(_) => 0,
    }
}

// As many bytes as a file has, or as a buffer takes, or as come before a read that fails, put at the buffer's start; how many.
pub fn read_full<R: Read>(file: &mut R, buf: &mut [u8]) -> usize
    ensures { result ≤ length buf.new }
{
    let mut done = 0;
    while done < buf.len() {
        let n = read_some(file, &mut buf[done..]);
        if n == 0 {
            return done;
        }
        done += n;
    }
    done
}

// The words of an error, before the number that std puts behind them in brackets.
fn put_reason(page: &mut Page, e: Error) {
    let mut text = [0u8; 256];
    let mut rest: &mut [u8] = &mut text;
    let _ = write!(rest, "{e}");
    let end = text
        .windows(2)
        .position(|pair| matches!(pair, [0, _] | [b' ', b'(']))
        .unwrap_or(255);
    page.put(&text[..end]);
}

// The message of a call of the system that failed: what it was about, and what the system says.
pub fn fail(rt: HostRuntime, what: &[u8], e: Error) {
    let mut page = Page::blank();
    page.put(what);
    page.put(b": ");
    put_reason(&mut page, e);
    page.put(b"\n");
    warn(rt, &page);
}
