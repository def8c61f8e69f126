// Columns of a file: a length, and that many words.
ghost use Rattle.std.specs.Prelude.{◌≡◌, ◌≤◌, take, length, ⊤};

use crate::words::{Words, float, octet, signed};
use std::alloc::AllocError;
use std::io;
use std::io::Read;

// A column of at most 8,193 words, as what they stand for.
pub struct Column<T: Copy> {
    words: [T; 8193],
    length: usize,
    ghost in_room: { length ≤ 8193 },
}

// A column is copied whole, with all of its room.
impl<T: Copy> Clone for Column<T> {
    ghost is_clone = { λ x y. y ≡ x };

    ghost is_infallible = { λ _. ⊤ };

    fn clone(&self) -> Result<Column<T>, AllocError> {
        Ok(*self)
    }
}

impl<T: Copy> Copy for Column<T> {}

impl<T: Copy> Column<T> {
    // A column with no words, whose room holds one value.
    pub fn new(blank: T) -> Column<T>
        ensures { result.length ≡ 0 }
    {
        Column {
            words: [blank; 8193],
            length: 0,
        }
    }

    // The next column of a file, whose words stand for what a function says of them.
    pub fn read<F: Read + Drop, M: Fn(u32) -> T>(
        &mut self,
        words: &mut Words<F>,
        of: M,
    ) -> io::Result<()>
        requires { M.IsAlwaysCallable of }
    {
        let length = words.next_word()?;
        self.length = (length as usize).min(8193);
        for i in 0..self.length {
            self.words[i] = of(words.next_word()?);
        }
        Ok(())
    }

    // What its words stand for.
    pub fn as_slice(&self) -> &[T]
        ensures value { result.now ≡ take self.now.length self.now.words }
        ensures bound { length result.now ≤ 8193 }
    {
        &self.words[..self.length]
    }
}

// A list: the columns of its edges, each of a length of its own.
#[derive(Drop)]
pub struct List {
    pub rows: Column<i32>,
    pub cols: Column<i32>,
    pub orientations: Column<u8>,
    pub bits: Column<u8>,
    pub confidences: Column<f32>,
}

impl List {
    // A list with no words.
    pub fn new() -> List {
        List {
            rows: Column::new(0),
            cols: Column::new(0),
            orientations: Column::new(0),
            bits: Column::new(0),
            confidences: Column::new(0.0),
        }
    }

    // The next list of a file.
    pub fn read<F: Read + Drop>(&mut self, words: &mut Words<F>) -> io::Result<()> {
        self.rows.read(words, signed)?;
        self.cols.read(words, signed)?;
        self.orientations.read(words, octet)?;
        self.bits.read(words, octet)?;
        self.confidences.read(words, float)
    }
}
