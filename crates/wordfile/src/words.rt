// A file as words of four bytes, the lowest first; and what a word stands for.
ghost use Rattle.std.specs.Prelude.{◌≡◌, ◌≤◌, true, ◌%◌};
ghost use Rattle.wordfile.specs.Bits.{real_bits, signed_of, float_of};

use slices::part::part;
use std::io;
use std::io::Read;

// How many bytes are read at once.
const ROOM: usize = 65536;

// The words of a file: what of it is read ahead stands in the room from `at` to `end`.
#[derive(Drop)]
pub struct Words<F: Read + Drop> {
    file: F,
    room: [u8; 65536],
    at: usize,
    end: usize,
    ghost within: { (at ≤ end) × (end ≤ 65536) },
}

impl<F: Read + Drop> Words<F> {
    // The words of a file, from where it stands.
    pub fn new(file: F) -> Words<F> {
        Words {
            file,
            room: [0; ROOM],
            at: 0,
            end: 0,
        }
    }

    // The room filled from its start until it is full or the file ends.
    fn fill(&mut self) -> io::Result<()> {
        self.at = 0;
        self.end = 0;
        while self.end < ROOM {
            let n = self.file.read(&mut self.room[self.end..])?;
            if n == 0 {
                break;
            }
            self.end += n;
        }
        Ok(())
    }

    // The next word; 0 past the end of the file.
    pub fn next_word(&mut self) -> io::Result<u32> {
        if self.end - self.at < 4 {
            self.fill()?;
        }
        if self.end - self.at < 4 {
            return Ok(0);
        }
        let bytes = part(&self.room, self.at, 4);
        self.at += 4;
        Ok(
            bytes
                .first_chunk()
                .map_or(0, |word| u32::from_le_bytes(*word)),
        )
    }
}

// A word as a coordinate, by two's complement.
pub fn signed(x: u32) -> i32
    ensures { result ≡ signed_of x }
{
    x.cast_signed()
}

// A float's bits that are no NaN's.
fn float_of(x: u32) -> f32
    requires { real_bits x ≡ true }
    ensures { result ≡ float_of x }
{
    f32::from_bits(x)
}

// Whether a float's bits are no NaN's.
fn real(x: u32) -> bool
    ensures { result ≡ real_bits x }
{
    x % 2147483648 <= 2139095040
}

// A word as a float; every NaN's bits give NaN.
pub fn float(x: u32) -> f32
    ensures { result ≡ float_of x }
{
    if real(x) { float_of(x) } else { f32::NAN }
}

// A word as a byte: its lowest.
pub fn octet(x: u32) -> u8
    ensures { result ≡ x % 256 }
{
    (x % 256) as u8
}
