// What becomes of an answer: its picture drawn, and the answer written, or nothing but that a file could not be had.
#![tactic(auto)]

use answertext::map;
use answertext::plain::ForPrograms;
use answertext::telling::{ForPeople, Telling};
use answertext::told::{How, Told};
use console::argument::Argument;
use console::message::warn;
use options::args::{Options, Way};
use slices::page::Page;
use std::{fmt, io};
use viewtext::view_file::View;

// What is written where a file cannot be had: nothing but, for programs, a line that says so. The message has gone to standard error.
pub fn give_up(rt: HostRuntime, plain: bool) -> io::Result<()> {
    if plain {
        rt.write_all(b"result=fault square=none\n")?;
    }
    Ok(())
}

// What is written where two ways to decode were asked for: that one is to be left out.
pub fn give_up_both(rt: HostRuntime, plain: bool) -> io::Result<()> {
    let mut page = Page::blank();
    page.put(b"--exact and --no-tables are two ways to decode; leave out one of them\n");
    warn(rt, &page);
    give_up(rt, plain)
}

// What is written where decode by hits was asked for and the view has log likelihoods: which of the two to leave out.
pub fn give_up_soft(rt: HostRuntime, o: Options, way: Way) -> io::Result<()> {
    let mut page = Page::blank();
    page.put(Argument::read(&rt, o.view).text());
    write!(
        page,
        ": this view has log likelihoods, which ask for soft decode, and {way} decodes by hits; leave out {way} or the log likelihoods\n"
    );
    warn(rt, &page);
    give_up(rt, o.plain)
}

// What became of the picture that was asked for; where it is written, the argument that names it.
#[derive(Clone, Copy)]
enum Drawn {
    Unasked,
    None,
    Written(usize),
}

// The same for programs, to the end of the line.
impl fmt::Display for Drawn {
    fn fmt<W: fmt::Write>(&self, f: &mut fmt::Formatter<W>) -> fmt::Result {
        f.write_str(match self {
            Drawn::Unasked => "\n",
            Drawn::None => " map=none\n",
            Drawn::Written(_) => " map=written\n",
        })
    }
}

impl Drawn {
    // What became of the picture: a refusal has none, and that of a found answer is written.
    fn of(o: Options, answer: Told) -> Drawn {
        match (o.map, answer.shown()) {
            (None, _) => Drawn::Unasked,
            (Some(i), Some(_)) => Drawn::Written(i),
            (Some(_), None) => Drawn::None,
        }
    }

    // The same for people.
    fn tell(self, rt: HostRuntime, page: &mut Page) {
        match self {
            Drawn::Unasked => {}
            Drawn::None => {
                page.put(b"  map          none written: a refusal has no square to show\n")
            }
            Drawn::Written(i) => {
                page.put(b"  map          ");
                page.put(Argument::read(&rt, i).text());
                page.put(b"\n");
            }
        }
    }
}

// The answer written as it was asked for.
fn tell(rt: HostRuntime, o: Options, telling: Telling) -> io::Result<()> {
    let drawn = Drawn::of(o, telling.answer);
    let mut page = Page::blank();
    if o.plain {
        write!(page, "{}{drawn}", ForPrograms(telling));
    } else {
        write!(page, "{}", ForPeople(telling));
        drawn.tell(rt, &mut page);
    }
    rt.write_all(page.text())
}

// The answer of a view, decoded one way or another, on a board of a pole's length: of a found answer its picture, if one is asked for, then the answer. A refusal has
// no picture; where a picture cannot be written, no answer is given.
pub fn conclude(
    rt: HostRuntime,
    o: Options,
    answer: Told,
    view: View,
    how: How,
    length: usize,
) -> io::Result<()> {
    if let (Some(i), Some(found)) = (o.map, answer.shown()) {
        if !map::draw(rt, i, found, view.extent, length) {
            return give_up(rt, o.plain);
        }
    }
    let settings = view.settings;
    tell(
        rt,
        o,
        Telling {
            answer,
            settings,
            how,
        },
    )
}
