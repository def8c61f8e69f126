// Where a byte, a confidence, the transforms, a pattern table or a setting leaves its range. Each check takes every input; one of a column answers where: the first bad index, or the length.
#![tactic(auto)]

ghost use Rattle.std.specs.Prelude.{◌≡◌};
ghost use Rattle.ranges.specs.Ranges.{in_range, first_bad_byte, first_bad_confidence, transforms_bad, pole_length, patterns_bad, horizontal_bad, vertical_bad};

// How many transforms a call may list, and the last transform and pattern by number.
const MAX_TRANSFORMS: usize = 8;

const LAST: u8 = 7;

// How many patterns a vertical table has, and the horizontal one of the flat board.
const FLAT_LENGTH: usize = 167;

// The least and the greatest length of a pole's horizontal table.
pub const LEAST_LENGTH: usize = 4;

const GREATEST_LENGTH: usize = 500;

// The first byte above top, or the length: orientations and bits (top 1), transform numbers and patterns (top 7).
pub fn first_bad_byte(xs: &[u8], top: u8) -> usize
    ensures { result ≡ first_bad_byte top xs.now }
{
    xs.iter().position(|x| top < *x).unwrap_or(xs.len())
}

// Whether x is a number from 0 to top; -0 counts as 0, a NaN is none.
pub fn in_range(x: f32, top: f32) -> bool
    ensures { result ≡ in_range top x }
{
    0.0f32 <= x && x <= top
}

// The first confidence that is no number from 0 to 1, or the length.
pub fn first_bad_confidence(xs: &[f32]) -> usize
    ensures { result ≡ first_bad_confidence xs.now }
{
    xs.iter()
        .position(|x| !in_range(*x, 1.0f32))
        .unwrap_or(xs.len())
}

// Whether there are no transforms, more than eight, or one above 7.
#[tactic(auto, unfolding(crate::specs::Ranges::transforms_bad))]
pub fn transforms_bad(transforms: &[u8]) -> bool
    ensures { result ≡ transforms_bad transforms.now }
{
    let n = transforms.len();
    n == 0 || MAX_TRANSFORMS < n || first_bad_byte(transforms, LAST) < n
}

// Whether a horizontal pattern table may have n entries: 4 to 500 of them and no multiple of 3. The flat board's has 167.
#[tactic(auto, unfolding(crate::specs::Ranges::pole_length))]
pub fn pole_length(n: usize) -> bool
    ensures { result ≡ pole_length n }
{
    (LEAST_LENGTH..=GREATEST_LENGTH).contains(&n) && n % 3 != 0
}

// Whether a pattern table has a length that it may not have, or an entry above 7.
#[tactic(auto, unfolding(crate::specs::Ranges::patterns_bad))]
fn patterns_bad(may_be: bool, patterns: &[u8]) -> bool
    ensures { result ≡ patterns_bad may_be patterns.now }
{
    !may_be || first_bad_byte(patterns, LAST) < patterns.len()
}

// Whether a horizontal pattern table has no pole's length, or an entry above 7.
#[tactic(auto, unfolding(crate::specs::Ranges::horizontal_bad))]
pub fn horizontal_bad(patterns: &[u8]) -> bool
    ensures { result ≡ horizontal_bad patterns.now }
{
    patterns_bad(pole_length(patterns.len()), patterns)
}

// Whether a vertical pattern table has not 167 entries, or one above 7.
#[tactic(auto, unfolding(crate::specs::Ranges::vertical_bad))]
pub fn vertical_bad(patterns: &[u8]) -> bool
    ensures { result ≡ vertical_bad patterns.now }
{
    patterns_bad(patterns.len() == FLAT_LENGTH, patterns)
}
