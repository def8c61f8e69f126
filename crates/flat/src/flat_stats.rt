// The answer of match statistics as a struct of plain numbers. A refusal fills every other field with what counted statistics never have.
ghost use Rattle.std.specs.Prelude.{◌≡◌};
ghost use Rattle.flat.specs.Flat.{flat_stats, flat_counted, flat_uncounted};

use crate::flat::{NOT_REFUSED, NOTHING};
use answer::{MatchStats, StatsAnswer};
use refusals::Refusal;

// The answer of match statistics: refusal is NOT_REFUSED when counted.
#[repr(C)]
#[derive(Clone, Copy)]
pub struct FlatStats {
    pub refusal: u32,
    pub list: u32,
    pub position: u32,
    pub edges: u32,
    pub hits: u32,
    pub error_rate: f32,
    pub mean_confidence: f32,
}

// Statistics that were counted, field by field.
fn counted(s: MatchStats) -> FlatStats
    ensures { result ≡ flat_counted s }
{
    FlatStats {
        refusal: NOT_REFUSED,
        list: NOTHING,
        position: NOTHING,
        edges: s.edges,
        hits: s.hits,
        error_rate: s.error_rate,
        mean_confidence: s.mean_confidence,
    }
}

// Statistics that were refused: the number and the place alone.
fn uncounted(refusal: Refusal) -> FlatStats
    ensures { result ≡ flat_uncounted refusal }
{
    let place = refusal.place;
    let list = crate::flat::list_of(place);
    let position = crate::flat::position_of(place);
    let none = crate::flat::no_number();
    FlatStats {
        refusal: refusal.number,
        list,
        position,
        edges: NOTHING,
        hits: NOTHING,
        error_rate: none,
        mean_confidence: none,
    }
}

// The answer of match statistics as a struct.
pub fn flattened_stats(answer: StatsAnswer) -> FlatStats
    ensures { result ≡ flat_stats answer }
{
    match answer {
        Ok(s) => counted(s),
        Err(refusal) => uncounted(refusal),
    }
}
