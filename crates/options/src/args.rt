// What the command was asked for.
use std::env::{Env, FillError};
use std::fmt;
use viewtext::text::is_name;

// A way to decode by hits that an option asks for, in place of the usual one.
#[derive(Clone, Copy, PartialEq, Eq)]
pub enum Way {
    Exact,
    NoTables,
}

// The option that asks for it.
impl fmt::Display for Way {
    fn fmt<W: fmt::Write>(&self, f: &mut fmt::Formatter<W>) -> fmt::Result {
        f.write_str(match self {
            Way::Exact => "--exact",
            Way::NoTables => "--no-tables",
        })
    }
}

// How a view is to be decoded and told: whether for programs, by which way, and the arguments that name the files; the picture only where one is asked for.
#[derive(Clone, Copy)]
pub struct Options {
    pub plain: bool,
    pub way: Option<Way>,
    pub board: usize,
    pub view: usize,
    pub map: Option<usize>,
}

// What the command does.
#[derive(Clone, Copy)]
pub enum Request {
    Help,
    Decode(Options),
}

// Why it does nothing: it cannot be understood, as help beside anything else, or two ways to decode were asked for.
#[derive(Clone, Copy, PartialEq, Eq)]
pub enum Misuse {
    Unclear,
    TwoWays,
}

// A misuse, and whether it is told to programs.
#[derive(Clone, Copy)]
pub struct Misused {
    pub misuse: Misuse,
    pub plain: bool,
}

// What is read of the arguments so far. `awaits`: the next argument names the picture.
#[derive(Clone, Copy)]
struct Reading {
    unclear: bool,
    help: bool,
    plain: bool,
    exact: bool,
    no_tables: bool,
    awaits: bool,
    board: Option<usize>,
    view: Option<usize>,
    map: Option<usize>,
}

// Whether a text is a picture's name: it ends in .svg.
fn is_picture(text: &[u8]) -> bool {
    text.len() > 4 && is_name(text, text.len() - 4, text.len(), b".svg")
}

// Whether a text begins like an option.
fn is_option(text: &[u8]) -> bool {
    matches!(text, [b'-', _, ..])
}

impl Reading {
    // No argument is read.
    fn new() -> Reading {
        Reading {
            unclear: false,
            help: false,
            plain: false,
            exact: false,
            no_tables: false,
            awaits: false,
            board: None,
            view: None,
            map: None,
        }
    }

    // Argument i, whose text is given: an option, or a file's name.
    fn take(&mut self, i: usize, text: &[u8]) {
        if self.awaits || !is_option(text) {
            self.take_file(i, text);
        } else {
            self.take_option(text);
        }
    }

    // A file's name: the picture's if it is awaited, else the board's, then the view's.
    fn take_file(&mut self, i: usize, text: &[u8]) {
        if self.awaits {
            self.awaits = false;
            self.map = Some(i);
            self.unclear = self.unclear || !is_picture(text);
        } else if self.board.is_none() {
            self.board = Some(i);
        } else if self.view.is_none() {
            self.view = Some(i);
        } else {
            self.unclear = true;
        }
    }

    // An option.
    fn take_option(&mut self, text: &[u8]) {
        match text {
            b"--help" | b"-h" => self.help = true,
            b"--plain" => self.plain = true,
            b"--map" if self.map.is_none() => self.awaits = true,
            b"--exact" => self.exact = true,
            b"--no-tables" => self.no_tables = true,
            _ => self.unclear = true,
        }
    }

    // Argument i, which is not understood where it is longer than a path can be.
    fn take_argument(&mut self, rt: &impl Env, i: usize) {
        let mut room = [0u8; 4096];
        match rt.arg(i, &mut room) {
            Ok(n) => self.take(i, &room[..n]),
            Err(_) => self.unclear = true,
        }
    }

    // The way that was asked for, if any.
    fn way(&self) -> Result<Option<Way>, Misuse> {
        if self.exact && self.no_tables {
            return Err(Misuse::TwoWays);
        }
        if self.exact {
            return Ok(Some(Way::Exact));
        }
        Ok(self.no_tables.then_some(Way::NoTables))
    }

    // What all arguments ask for.
    fn options(&self) -> Result<Options, Misuse> {
        if self.unclear || self.help || self.awaits {
            return Err(Misuse::Unclear);
        }
        let board = self.board.ok_or(Misuse::Unclear)?;
        let view = self.view.ok_or(Misuse::Unclear)?;
        Ok(Options {
            plain: self.plain,
            way: self.way()?,
            board,
            view,
            map: self.map,
        })
    }
}

// Whether there is an argument i.
fn is_given(rt: &impl Env, i: usize) -> bool {
    let mut start = [0u8; 1];
    !matches!(rt.arg(i, &mut start), Err(FillError::NotPresent))
}

impl Request {
    // What the arguments ask for. Six are the most that can be understood.
    pub fn read(rt: &impl Env) -> Result<Request, Misused> {
        let mut reading = Reading::new();
        for i in 1..7usize {
            if is_given(rt, i) {
                reading.take_argument(rt, i);
            }
        }
        if is_given(rt, 7) {
            reading.unclear = true;
        }
        if reading.help && !is_given(rt, 2) {
            return Ok(Request::Help);
        }
        match reading.options() {
            Ok(options) => Ok(Request::Decode(options)),
            Err(misuse) => Err(Misused {
                misuse,
                plain: reading.plain,
            }),
        }
    }
}
