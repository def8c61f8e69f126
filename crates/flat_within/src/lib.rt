// The answer of the test of one placing as a struct of plain numbers, for callers whose language has no enum with fields. A refusal has its number and its place, and fills every other field with what no judged answer has.
#![tactic(auto)]

ghost use Rattle.std.specs.Prelude.{◌≡◌, cond};
ghost use Rattle.flat_within.specs.FlatWithin.{flat_within, flat_judged, flat_unjudged};

use flat::flat::{NOT_REFUSED, NOTHING};
use refusals::Refusal;
use within_answer::{LimitTest, WithinAnswer};

// The answer of the test: refusal is NOT_REFUSED when judged, and within is 1 for yes and 0 for no. Five fields of four bytes.
#[repr(C)]
#[derive(Clone, Copy)]
pub struct FlatWithin {
    pub refusal: u32,
    pub list: u32,
    pub position: u32,
    pub within: u32,
    pub read: u32,
}

// Yes as 1, no as 0.
fn yes_or_no(within: bool) -> u32
    ensures { result ≡ cond within 1 0 }
{
    if within {
        return 1;
    }
    0
}

// What was judged, field by field.
fn judged(test: LimitTest) -> FlatWithin
    ensures { result ≡ flat_judged test }
{
    FlatWithin {
        refusal: NOT_REFUSED,
        list: NOTHING,
        position: NOTHING,
        within: yes_or_no(test.within),
        read: test.read,
    }
}

// A refusal: its number and its place, and nothing that could be taken for yes or no.
fn refused(refusal: Refusal) -> FlatWithin
    ensures { result ≡ flat_unjudged refusal }
{
    let place = refusal.place;
    let list = flat::flat::list_of(place);
    let position = flat::flat::position_of(place);
    FlatWithin {
        refusal: refusal.number,
        list,
        position,
        within: NOTHING,
        read: NOTHING,
    }
}

// The answer of the test as a struct.
pub fn flattened_within(answer: WithinAnswer) -> FlatWithin
    ensures { result ≡ flat_within answer }
{
    match answer {
        Ok(test) => judged(test),
        Err(refusal) => refused(refusal),
    }
}
