// The files that the arguments name.
use console::argument::Argument;
use console::files::open;
use std::env::{Env, FillError};
use std::io;
use std::rt::Files;

// The file that argument i names, opened for reading: its name is written as a heading.
pub fn open_named<R: Print + Env + Files>(rt: &R, i: usize) -> io::Result<R::File> {
    let name = Argument::read(rt, i);
    rt.write_all(b"== ")?;
    rt.write_all(name.text())?;
    rt.write_all(b"\n")?;
    open(rt, name.text())
}

// Whether there is an argument i.
pub fn is_named(rt: &impl Env, i: usize) -> bool {
    let mut start = [0u8; 1];
    !matches!(rt.arg(i, &mut start), Err(FillError::NotPresent))
}
