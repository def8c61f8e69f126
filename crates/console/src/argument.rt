// The arguments that a program is given.
ghost use Rattle.std.specs.Prelude.{◌≤◌, length};

use std::env::Env;

// How long an argument may be: as long as a path can be.
const ROOM: usize = 4096;

// The text of an argument, in room of its own.
#[derive(Drop)]
pub struct Argument {
    room: [u8; 4096],
    end: usize,
    ghost fits: { end ≤ 4096 },
}

impl Argument {
    // Argument i; no text where there is no such argument, or where it is longer than a path can be.
    pub fn read(rt: &impl Env, i: usize) -> Argument {
        let mut room = [0; ROOM];
        let end = rt.arg(i, &mut room).unwrap_or(0);
        Argument { room, end }
    }

    // Its text.
    pub fn text(&self) -> &[u8]
        ensures { length result.now ≤ 4096 }
    {
        &self.room[..self.end]
    }
}
