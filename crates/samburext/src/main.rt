// The command: which square of a board a camera faces. Its own exit status says only whether it could say what it had to; the script `samburext` at the root makes one of the first word written.
#![tactic(auto)]

mod decode; // the decoder called on what the files gave

use answertext::map;
use console::files::fail;
use options::args::{Misuse, Options, Request};
use outcome::{conclude, give_up, give_up_both, give_up_soft};
use std::io;
use std::process::ExitCode;
use viewfiles::files;
use viewtext::board_file::Board;
use viewtext::view_file::Lists;

// The view of the options on a board: decoded, and the answer written.
fn face(rt: HostRuntime, o: Options, board: &Board) -> io::Result<()> {
    let mut lists = Lists::new();
    let Some(view) = files::load_view(rt, o.view, &mut lists) else {
        return give_up(rt, o.plain);
    };
    match decode::how_of(&lists, o.way) {
        Err(way) => give_up_soft(rt, o, way),
        Ok(how) => {
            let answer = decode::decode(view.settings, how, &lists, board);
            conclude(rt, o, answer, view, how, board.length())
        }
    }
}

// The board, then the view. Where a picture cannot take its place, no answer is given.
fn run(rt: HostRuntime, o: Options) -> io::Result<()> {
    if let Some(i) = o.map {
        if !map::is_ready(rt, i) {
            return give_up(rt, o.plain);
        }
    }
    match files::load_board(rt, o.board) {
        Some(board) => face(rt, o, &board),
        None => give_up(rt, o.plain),
    }
}

// What the command was asked for, done.
fn obey(rt: HostRuntime) -> io::Result<()> {
    match Request::read(&rt) {
        Ok(Request::Help) => options::help::show(&rt),
        Ok(Request::Decode(o)) => run(rt, o),
        Err(misused) => match misused.misuse {
            Misuse::TwoWays => give_up_both(rt, misused.plain),
            Misuse::Unclear => {
                options::help::show_use(rt);
                give_up(rt, misused.plain)
            }
        },
    }
}

fn main(rt: HostRuntime) -> ExitCode {
    match obey(rt) {
        Ok(()) => ExitCode::SUCCESS,
        Err(e) => {
            fail(rt, b"standard output", e);
            ExitCode::FAILURE
        }
    }
}
