// Text put together in one buffer before any of it is written, so that an answer is written whole or not at all. A page that is full takes no more,
// and whoever wrote on it asks whether it is whole.
ghost use Rattle.std.specs.Prelude.{◌≡◌, ◌≤◌, ℕ, List, [], ltb, length, take};
ghost use Rattle.slices.specs.Page.{taken, put_behind, IsWritten};

use std::fmt;
use std::marker::Model;

// How many bytes a page has room for.
const ROOM: usize = 32768;

// A page: the text that was put on it so far, in room of its own.
#[derive(Drop)]
pub struct Page {
    room: [u8; 32768],
    end: usize,
}

impl Model for Page {
    ghost Value = { List ℕ };

    ghost view = { λ page. take page.end page.room };

    ghost invariant = { λ page. page.end ≤ 32768 };
}

impl Page {
    // A page with nothing on it.
    pub fn blank() -> Self
        ensures { result ≡ [] }
    {
        Page {
            room: [0; ROOM],
            end: 0,
        }
    }

    // Text put behind what stands on the page; what finds no room is left out.
    pub fn put(&mut self, text: &[u8])
        ensures { self.new ≡ put_behind self.old text.now }
    {
        let n = taken_by(self.end, text.len());
        self.room[self.end..self.end + n].copy_from_slice(&text[..n]);
        self.end += n;
    }

    // Whether the page is not full, so that it holds all that was put on it.
    pub fn is_whole(&self) -> bool
        ensures { result ≡ ltb (length self.now) 32768 }
    {
        self.end < ROOM
    }

    // The text that stands on the page.
    pub fn text(&self) -> &[u8]
        ensures { result.now ≡ self.now }
    {
        &self.room[..self.end]
    }

    // What `write!` calls: a text with values in it is put. It cannot fail: a page that a value fails to be written on counts as full.
    pub fn write_fmt<D: fmt::Display + Drop>(&mut self, text: D)
        ensures { IsWritten self.old (D.output text) self.new }
    {
        let _ = &self.end;
        if let Err(_) = fmt::Write::write(self, text) {
            self.end = ROOM;
        }
    }
}

impl fmt::Write for Page {
    ghost write_str_gives = { λ page text after. after ≡ put_behind page text };

    fn write_str(&mut self, s: &str) -> fmt::Result {
        self.put(s.as_bytes());
        Ok(())
    }
}

// How many of n bytes a page takes behind the first bytes of it.
fn taken_by(at: usize, n: usize) -> usize
    ensures { result ≡ taken at n }
{
    n.min(ROOM.saturating_sub(at))
}
