// The record that is kept of a list while it is edited: what it holds, and one edge more or less of it.
#![tactic(auto)]

ghost use Rattle.std.specs.Prelude.{◌≡◌, ◌<◌, ◌+◌, ◌-◌};
ghost use Rattle.laws.specs.Words.{put};
ghost use Rattle.tally.specs.Tally.{belongs, Adds, with_edge, without_edge, count_of};

use answer::Square;
use refusals::Refusal;

// The numbers of request C-17, under the names of the C header.
pub const NO_SUCH_EDGE: u32 = 18; // no edge at the position to remove or flip

pub const BAD_RECORD: u32 = 24; // a record that cannot be that of its list

// The record: the placing, how many edges the list has, and its hits and misses by the orientation that is listed.
#[derive(Clone, Copy)]
pub struct Tally {
    pub square: Square,
    pub edges: u32,
    pub horizontal_hits: u32,
    pub horizontal_misses: u32,
    pub vertical_hits: u32,
    pub vertical_misses: u32,
}

// What an edit answers: the new record, or a refusal.
pub type TallyAnswer = Result<Tally, Refusal>;

// How an edit was judged: refused, or taken, with whether its edge is a hit.
pub type Judged = Result<bool, Refusal>;

// Whether an edge, by its listed orientation and whether it is a hit, belongs to the hits (wanted) or misses of one side.
fn belongs(orientation: u8, hit: bool, side: u8, wanted: bool) -> bool
    ensures { result ≡ belongs orientation hit side wanted }
{
    if orientation == side {
        if wanted {
            return hit;
        }
        return !hit;
    }
    false
}

// A count, one more where it is chosen.
fn more_if(chosen: bool, count: u32) -> u32
    requires { count < 4294967295 }
    ensures { result ≡ put ◌+◌ chosen count 1 }
{
    if chosen {
        return count + 1;
    }
    count
}

// A count, one less where it is chosen; 0 stays 0.
fn less_if(chosen: bool, count: u32) -> u32
    ensures { result ≡ put ◌-◌ chosen count 1 }
{
    if chosen {
        if count == 0 {
            return 0;
        }
        return count - 1;
    }
    count
}

// The record of a list that has one edge more.
pub fn with_edge(tally: Tally, orientation: u8, hit: bool) -> Tally
    requires { Adds tally × (tally.edges < 4294967295) }
    ensures { result ≡ with_edge tally orientation hit }
{
    let square = tally.square;
    Tally {
        square,
        edges: tally.edges + 1,
        horizontal_hits: more_if(belongs(orientation, hit, 0, true), tally.horizontal_hits),
        horizontal_misses: more_if(belongs(orientation, hit, 0, false), tally.horizontal_misses),
        vertical_hits: more_if(belongs(orientation, hit, 1, true), tally.vertical_hits),
        vertical_misses: more_if(belongs(orientation, hit, 1, false), tally.vertical_misses),
    }
}

// The record of a list that has one edge less.
pub fn without_edge(tally: Tally, orientation: u8, hit: bool) -> Tally
    ensures { result ≡ without_edge tally orientation hit }
{
    let square = tally.square;
    Tally {
        square,
        edges: less_if(true, tally.edges),
        horizontal_hits: less_if(belongs(orientation, hit, 0, true), tally.horizontal_hits),
        horizontal_misses: less_if(belongs(orientation, hit, 0, false), tally.horizontal_misses),
        vertical_hits: less_if(belongs(orientation, hit, 1, true), tally.vertical_hits),
        vertical_misses: less_if(belongs(orientation, hit, 1, false), tally.vertical_misses),
    }
}

// How many hits or misses of an orientation a record has: those that such an edge belongs to.
pub fn count_of(tally: Tally, orientation: u8, hit: bool) -> u32
    ensures { result ≡ count_of tally orientation hit }
{
    if orientation == 0 {
        if hit {
            return tally.horizontal_hits;
        }
        return tally.horizontal_misses;
    }
    if hit {
        return tally.vertical_hits;
    }
    tally.vertical_misses
}
