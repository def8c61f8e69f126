// Numbers as a person writes them. A number is its digits, read as a whole number, over a power of ten; both stay below 2^24, where every whole number is an f32,
// so that one division gives the f32 nearest to what is written.
ghost use Rattle.std.specs.Prelude.{◌≡◌, ◌<◌, ◌^◌, if◌then◌else◌, nat_eq, nat_lt, Some, None};
ghost use Rattle.viewtext.specs.Decimal.{float_of, next_digits, next_scale};

// A number that was read: its sign, whether it has a point, its digits without the point, and the power of ten below them.
#[derive(Clone, Copy)]
pub struct Decimal {
    minus: bool,
    point: bool,
    digits: u32,
    scale: u32,
    ghost digits_fit: { digits < 2 ^ 24 },
    ghost scale_fits: { (0 < scale) × (scale < 2 ^ 24) },
}

// The digits with one more; none where there are too many, or where x is no digit.
fn next_digits(digits: u32, x: u8) -> Option<u32>
    ensures { result ≡ (if nat_lt (next_digits digits x) 16777216 then Some (next_digits digits x) else None) }
{
    if digits > 1677721 || x > 9 {
        return None;
    }
    let next = digits * 10 + u32::from(x);
    (next < 16777216).then_some(next)
}

// The power of ten below the digits after one digit more; none where that would be too large.
fn next_scale(point: bool, scale: u32) -> Option<u32>
    requires { 0 < scale }
    ensures { result ≡ (if nat_eq (next_scale point scale) 0 then None else Some (next_scale point scale)) }
{
    if !point {
        return Some(scale);
    }
    if scale > 1000000 {
        return None;
    }
    Some(scale * 10)
}

impl Decimal {
    // The number that a word is: it has a digit, and nothing else but a sign in front and one point.
    pub(crate) fn read(word: &[u8]) -> Option<Decimal> {
        let (minus, unsigned) = match word {
            [b'-', unsigned @ ..] => (true, unsigned),
            _ => (false, word),
        };
        if !unsigned.iter().any(|b| b.is_ascii_digit()) {
            return None;
        }
        let start = Decimal {
            minus,
            point: false,
            digits: 0,
            scale: 1,
        };
        unsigned
            .iter()
            .try_fold(start, |number, byte| number.with_byte(*byte))
    }

    // The number with one byte more.
    fn with_byte(self, byte: u8) -> Option<Decimal> {
        match byte {
            b'.' if self.point => None,
            b'.' => Some(Decimal {
                minus: self.minus,
                point: true,
                digits: self.digits,
                scale: self.scale,
            }),
            b'0'..=b'9' => self.with_digit(byte - b'0'),
            _ => None,
        }
    }

    // The number with one digit more, unless it has too many.
    fn with_digit(self, x: u8) -> Option<Decimal> {
        let digits = next_digits(self.digits, x)?;
        let scale = next_scale(self.point, self.scale)?;
        Some(Decimal {
            minus: self.minus,
            point: self.point,
            digits,
            scale,
        })
    }

    // Whether it is a whole number, written without a point, of at most the given size.
    pub(crate) fn is_whole_to(self, most: u32) -> bool {
        !self.point && self.digits <= most
    }

    // Whether it has no minus in front.
    pub(crate) fn is_unsigned(self) -> bool {
        !self.minus
    }

    // Whether it lies from 0 to 1.
    pub(crate) fn is_share(self) -> bool {
        !self.minus && self.digits <= self.scale
    }

    // Whether its f32 lies within 65,536 of 0.
    pub(crate) fn is_small(self) -> bool {
        let x = self.to_f32();
        x >= -65536.0 && x <= 65536.0
    }

    // The f32 nearest to it, by one division of two whole numbers that are f32 themselves.
    pub(crate) fn to_f32(self) -> f32
        ensures { result ≡ float_of self.minus self.digits self.scale }
    {
        let x = std::num::nearest_u32_to_f32(self.digits)
            / std::num::nearest_u32_to_f32(self.scale);
        if self.minus { 0.0 - x } else { x }
    }

    // Its digits, which are all of it where it is a whole number.
    pub(crate) fn digits(self) -> u32
        ensures { (result ≡ self.digits) × (result < 2 ^ 24) }
    {
        self.digits
    }

    // Its digits with its sign.
    pub(crate) fn signed_digits(self) -> i32 {
        let size = self.digits as i32;
        if self.minus { -size } else { size }
    }
}
