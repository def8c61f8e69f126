// The board and the view, read from their files. A file is read whole before any of it counts.
ghost use Rattle.std.specs.Prelude.{◌≡◌, length, true, IfSome};
ghost use Rattle.ranges.specs.Ranges.{pole_length};
ghost use Rattle.viewtext.specs.Board.{Patterns};

use crate::report::{report, report_size};
use console::argument::Argument;
use console::files;
use console::files::{fail, read_full};
use std::io::Read;
use viewtext::board_file::Board;
use viewtext::view_file::{Lists, View, read_view};

// The bytes of the file that argument i names, read into the room that is lent; none after a message where the file has more, or cannot be read.
fn load(rt: HostRuntime, i: usize, room: &mut [u8]) -> Option<&[u8]> {
    let name = Argument::read(&rt, i);
    let mut file = match files::open(&rt, name.text()) {
        Ok(file) => file,
        Err(e) => {
            fail(rt, name.text(), e);
            return None;
        }
    };
    let most = room.len();
    let n = read_full(&mut file, room);
    let mut one = [0u8; 1];
    match file.read(&mut one) {
        Ok(0) => Some(&room[..n]),
        Ok(_) => {
            report_size(rt, i, most);
            None
        }
        Err(e) => {
            fail(rt, name.text(), e);
            None
        }
    }
}

// The board that argument i names, a file of at most 65,536 bytes; none after a message where it cannot be had.
pub fn load_board(rt: HostRuntime, i: usize) -> Option<Board>
    ensures whole { IfSome result (λ b. pole_length b.length ≡ true) }
    ensures patterns { IfSome result (λ b. Patterns b.horizontal × Patterns b.vertical) }
{
    let mut room = [0u8; 65536];
    let file = load(rt, i, &mut room)?;
    match Board::read(file) {
        Ok(board) => Some(board),
        Err(fault) => {
            report(rt, i, file, fault);
            None
        }
    }
}

// Room for a view's file.
fn view_room() -> [u8; 1048576]
    ensures { 1048576 ≡ length result }
{
    [0; 1048576]
}

// The view that argument i names, a file of at most 1,048,576 bytes, with its edges in the lists; none after a message where it cannot be had.
pub fn load_view(rt: HostRuntime, i: usize, lists: &mut Lists) -> Option<View> {
    let mut room = view_room();
    let file = load(rt, i, &mut room)?;
    match read_view(file, lists) {
        Ok(view) => Some(view),
        Err(fault) => {
            report(rt, i, file, fault);
            None
        }
    }
}
