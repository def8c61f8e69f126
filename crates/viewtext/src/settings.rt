// A view's settings: the transforms that are searched, the error limit and the soft margin.
ghost use Rattle.std.specs.Prelude.{◌≡◌, ◌≤◌, ◌↔◌, take, IsTrue, IsSome, MatchOption, ◌∷◌, []};

use crate::fault::{Expected, Fault};
use crate::field::next_number;
use crate::text::{Line, Word};

// The error limit and the soft margin that hold where the file gives none.
const USUAL_LIMIT: f32 = 0.3;

const USUAL_MARGIN: f32 = 0.02;

// The numbers of one to eight transforms.
#[derive(Clone, Copy)]
pub struct Transforms {
    numbers: [u8; 8],
    count: usize,
    ghost in_room: { count ≤ 8 },
}

impl Transforms {
    // The four turns, which are searched where a file names none.
    fn turns() -> Transforms
        ensures { take result.count result.numbers ≡ 0 ∷ 1 ∷ 2 ∷ 3 ∷ [] }
    {
        Transforms {
            numbers: [0, 1, 2, 3, 0, 0, 0, 0],
            count: 4,
        }
    }

    // The transforms that the rest of a line names.
    fn read(line: &mut Line) -> Result<Transforms, Fault> {
        let start = line.place();
        let mut numbers = [0; 8];
        let mut count = 0;
        for (i, number) in numbers.iter_mut().enumerate() {
            if line.is_read() {
                break;
            }
            *number = (next_number(line, Expected::Transform)?.digits() % 8) as u8;
            count = i + 1;
        }
        line.end(Expected::SomeTransforms)?;
        if count == 0 {
            return Err(Fault {
                place: start,
                expected: Expected::SomeTransforms,
            });
        }
        Ok(Transforms { numbers, count })
    }

    // Their numbers in a row.
    pub fn numbers(&self) -> &[u8]
        ensures { result.now ≡ take self.now.count self.now.numbers }
    {
        &self.numbers[..self.count]
    }
}

// The transforms that are searched, the error limit and the soft margin, each where the file gives it.
#[derive(Clone, Copy)]
pub struct Settings {
    transforms: Option<Transforms>,
    limit: Option<f32>,
    margin: Option<f32>,
}

impl Settings {
    // Settings of which the file gives none so far.
    pub(crate) fn new() -> Settings {
        Settings {
            transforms: None,
            limit: None,
            margin: None,
        }
    }

    // The setting of a line, which a file gives once.
    pub(crate) fn read(&mut self, word: &Word, line: &mut Line) -> Result<(), Fault> {
        match word.text {
            b"transforms" => {
                once(self.transforms, word)?;
                self.transforms = Some(Transforms::read(line)?);
            }
            b"limit" => {
                once(self.limit, word)?;
                self.limit = Some(last_number(line, Expected::Limit)?);
            }
            _ => {
                once(self.margin, word)?;
                self.margin = Some(last_number(line, Expected::Margin)?);
            }
        }
        Ok(())
    }

    // The transforms that are searched.
    pub fn transforms(&self) -> Transforms
        ensures { MatchOption self.now.transforms (take result.count result.numbers ≡ 0 ∷ 1 ∷ 2 ∷ 3 ∷ []) (λ t. result ≡ t) }
    {
        self.transforms.unwrap_or(Transforms::turns())
    }

    // The error limit.
    pub fn limit(&self) -> f32
        ensures { MatchOption self.now.limit (result ≡ USUAL_LIMIT) (λ x. result ≡ x) }
    {
        self.limit.unwrap_or(USUAL_LIMIT)
    }

    // The soft margin.
    pub fn margin(&self) -> f32
        ensures { MatchOption self.now.margin (result ≡ USUAL_MARGIN) (λ x. result ≡ x) }
    {
        self.margin.unwrap_or(USUAL_MARGIN)
    }

    // Whether the transforms are the file's own.
    pub fn has_transforms(&self) -> bool
        ensures { IsTrue result ↔ IsSome self.now.transforms }
    {
        self.transforms.is_some()
    }

    // Whether the error limit is.
    pub fn has_limit(&self) -> bool
        ensures { IsTrue result ↔ IsSome self.now.limit }
    {
        self.limit.is_some()
    }

    // Whether the soft margin is.
    pub fn has_margin(&self) -> bool
        ensures { IsTrue result ↔ IsSome self.now.margin }
    {
        self.margin.is_some()
    }
}

// Nothing, where a file does not have a setting so far that a word begins.
fn once<T: Drop>(setting: Option<T>, word: &Word) -> Result<(), Fault> {
    if setting.is_some() {
        return Err(word.fault(Expected::SettingOnce));
    }
    Ok(())
}

// The number that a line ends with, as an f32.
fn last_number(line: &mut Line, expected: Expected) -> Result<f32, Fault> {
    let number = next_number(line, expected)?;
    line.end(Expected::LineEnd)?;
    Ok(number.to_f32())
}
