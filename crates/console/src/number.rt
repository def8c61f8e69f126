// Floats as people read them: values that `write!` and `println!` show.
ghost use Rattle.std.specs.Prelude.{◌≡◌, Some};
ghost use Rattle.console.specs.Bits.{bits_of, shown_bits};

use std::fmt;

// How many millionths 1 has.
const MILLION: u64 = 1000000;

// A float as a decimal number, to six places; NaN has its name.
#[derive(Clone, Copy)]
pub struct Decimal(pub f32);

// A number in millionths.
#[derive(Clone, Copy)]
struct Millionths(u64);

// A float by its bits, in eight hexadecimal digits; NaN has its name.
#[derive(Clone, Copy)]
pub struct Bits(pub f32);

impl Millionths {
    // The millionths nearest to a number that is not below 0; none where they are 2^64 or more.
    fn nearest(x: f64) -> Millionths {
        let y = x * 1000000.0 + 0.5;
        if y < 18446744073709551616.0 {
            Millionths(std::num::saturating_f64_to_u64(y))
        } else {
            Millionths(0)
        }
    }
}

impl fmt::Display for Decimal {
    fn fmt<W: fmt::Write>(&self, f: &mut fmt::Formatter<W>) -> fmt::Result {
        let y = std::num::f32_to_f64_with_nan(self.0);
        if y < 0.0 {
            write!(f, "-{}", Millionths::nearest(0.0 - y))
        } else if y >= 0.0 {
            write!(f, "{}", Millionths::nearest(y))
        } else {
            f.write_str("NaN")
        }
    }
}

impl fmt::Display for Millionths {
    // The whole part, and behind a point the places, without the zeros at their end.
    fn fmt<W: fmt::Write>(&self, f: &mut fmt::Formatter<W>) -> fmt::Result {
        write!(f, "{}", self.0 / MILLION)?;
        let mut left = self.0 % MILLION;
        if left != 0 {
            f.write_str(".")?;
        }
        for _ in 0..6 {
            if left != 0 {
                left *= 10;
                write!(f, "{}", left / MILLION)?;
                left %= MILLION;
            }
        }
        Ok(())
    }
}

impl fmt::Display for Bits {
    ghost output = { λ b. Some (shown_bits b.0) };

    fn fmt<W: fmt::Write>(&self, f: &mut fmt::Formatter<W>) -> fmt::Result {
        let x = self.0;
        if x != x {
            f.write_str("NaN")
        } else {
            write!(f, "{:08x}", bits_of(x))
        }
    }
}

// The bits of a float; each NaN gives the same, 7fc00000.
pub fn bits_of(x: f32) -> u32
    ensures { result ≡ bits_of x }
{
    if x != x {
        return 2143289344;
    }
    f32::to_bits(x)
}
