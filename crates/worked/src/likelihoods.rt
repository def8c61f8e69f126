// Runs the functions of `likelihood` on document 01's numbers and on the numbers at their edges.
ghost use Rattle.std.specs.Prelude.{◌^◌, ◌≤◌, unsigned_abs};

use console::number::Bits;
use std::io;

// The likelihood x by its name, and the whole number that it is quantised to.
fn quantise(rt: &impl Print, name: &str, x: f32) -> io::Result<()> {
    print!(rt; "quantise {name}: ")?;
    if likelihood::is_likelihood(x) {
        println!(rt; "{}", likelihood::quantize_ll(x))
    } else {
        println!(rt; "refused")
    }
}

// A sum and the bits of the f32 that it returns to.
fn back(rt: &impl Print, sum: i64) -> io::Result<()>
    requires { unsigned_abs sum ≤ 2 ^ 53 }
{
    println!(rt; "back {sum}: {}", Bits(likelihood::dequantize_ll(sum)))
}

// Halves and the ends of the range.
fn quantise_halves(rt: &impl Print) -> io::Result<()> {
    quantise(rt, "-2^-25", -1.0 / 33554432.0)?;
    quantise(rt, "-2^-26", -1.0 / 67108864.0)?;
    quantise(rt, "-65536", -65536.0)?;
    quantise(rt, "65536", 65536.0)?;
    quantise(rt, "2^-25", 1.0 / 33554432.0)?;
    quantise(rt, "2^-25 - 2^-49", 16777215.0 / 562949953421312.0)?;
    quantise(rt, "5 * 2^-25", 5.0 / 33554432.0)?;
    quantise(rt, "-7 * 2^-25", -7.0 / 33554432.0)
}

// Whole numbers, 0 and the smallest floats.
fn quantise_wholes(rt: &impl Print) -> io::Result<()> {
    quantise(rt, "2^-24", 1.0 / 16777216.0)?;
    quantise(rt, "-0.7", -0.7)?;
    quantise(rt, "1", 1.0)?;
    quantise(rt, "0", 0.0)?;
    quantise(rt, "-0", -0.0)?;
    quantise(
        rt,
        "2^-149",
        1.0 / 1267650600228229401496703205376.0 / 562949953421312.0,
    )
}

// The last that are taken, and what is refused.
fn quantise_last(rt: &impl Print) -> io::Result<()> {
    quantise(rt, "65536 - 2^-8", 65535.99609375)?;
    quantise(rt, "65536 + 2^-7", 65536.0078125)?;
    quantise(rt, "-65536 - 2^-7", -65536.0078125)?;
    quantise(rt, "infinity", 1.0 / 0.0)?;
    quantise(rt, "-infinity", -1.0 / 0.0)?;
    quantise(rt, "NaN", 0.0 / 0.0)
}

// Sums around 24 significant bits, and the ends of the range.
fn back_all(rt: &impl Print) -> io::Result<()> {
    back(rt, 16777217)?;
    back(rt, 16777219)?;
    back(rt, 0)?;
    back(rt, 1)?;
    back(rt, -1)?;
    back(rt, 16777215)?;
    back(rt, 16777216)?;
    back(rt, 16777218)?;
    back(rt, -16777217)?;
    back(rt, -16777219)?;
    back(rt, 33554431)?;
    back(rt, -1099511627776)?;
    back(rt, 9007199254740991)?;
    back(rt, 9007199254740992)?;
    back(rt, -9007199254740992)
}

// Both functions, each on its numbers.
pub(crate) fn show_all(rt: &impl Print) -> io::Result<()> {
    quantise_halves(rt)?;
    quantise_wholes(rt)?;
    quantise_last(rt)?;
    back_all(rt)
}
