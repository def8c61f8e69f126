// One number of a line, read by what is expected there.
use crate::decimal::Decimal;
use crate::fault::{Expected, Fault};
use crate::text::Line;

// Whether a number is what is expected.
fn fits(number: Decimal, expected: Expected) -> bool {
    match expected {
        Expected::Row | Expected::Column => number.is_whole_to(1000000),
        Expected::Bit => number.is_whole_to(1) && number.is_unsigned(),
        Expected::Transform => number.is_whole_to(7) && number.is_unsigned(),
        Expected::Margin => number.is_small() && number.is_unsigned(),
        Expected::Match | Expected::Mismatch => number.is_small(),
        _ => number.is_share(),
    }
}

// The next number of a line, which is to be what is expected.
pub(crate) fn next_number(line: &mut Line, expected: Expected) -> Result<Decimal, Fault> {
    let Some(word) = line.next_word() else {
        return Err(Fault {
            place: line.place(),
            expected,
        });
    };
    match Decimal::read(word.text) {
        Some(number) if fits(number, expected) => Ok(number),
        _ => Err(word.fault(expected)),
    }
}
