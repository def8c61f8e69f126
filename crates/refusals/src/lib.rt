// Refusals: why a call was refused, by name, and which of two refusals comes first.
#![tactic(auto)]

ghost use Rattle.std.specs.Prelude.{◌≡◌};
ghost use Rattle.refusals.specs.Numbers.{numbered, edge_refusal};
ghost use Rattle.refusals.specs.Order.{ranked, earlier};

// The numbers of document 01's table and of the requests, under the names of the C header. Early refusals: what is wrong with the call itself.
pub const ROOM_TOO_SHORT: u32 = 1; // room too short

pub const LENGTHS_DIFFER: u32 = 2; // one list's slices differ in length

pub const LIST_SIZE: u32 = 3; // a list empty (not for match statistics) or over 8,192

pub const BAD_COORDINATE: u32 = 4; // coordinate outside its range

pub const BAD_ORIENTATION: u32 = 16; // orientation code outside its range (comes after 4)

pub const BAD_BIT: u32 = 17; // bit outside its range (comes after 16)

pub const BAD_CONFIDENCE: u32 = 5; // confidence NaN, below 0 or above 1

pub const BAD_LIKELIHOOD: u32 = 6; // a likelihood NaN, infinite or out of range (soft)

pub const BAD_TRANSFORM: u32 = 7; // transform count or number out of range

pub const BAD_TABLE: u32 = 8; // pattern table length or byte wrong

pub const BAD_SETTING: u32 = 9; // error limit, soft margin or given origin NaN or out of range
// Late refusals: what an accepted call comes to.
pub const NO_CONFIDENCE: u32 = 10; // total confidence is 0

pub const NONE_WITHIN_LIMIT: u32 = 11; // no listed transform's best hits are within the limit

pub const LISTS_DISAGREE: u32 = 12; // logical and physical winners differ

pub const NOT_FAR_AHEAD: u32 = 13; // gate not passed

pub const SOFT_MARGIN: u32 = 14; // margin below the soft margin

pub const SOFT_HARD_DISAGREE: u32 = 15; // soft and hard winners differ

// The list of a call that holds an edge. A call with one list has the only one.
#[derive(Clone, Copy)]
pub enum ListName {
    Logical,
    Physical,
    Only,
}

// Which edge: its list, and its position there, from 0.
#[derive(Clone, Copy)]
pub struct EdgePlace {
    pub list: ListName,
    pub position: u32,
}

// Why a call was refused: the number, and the edge at fault where it is about one.
#[derive(Clone, Copy)]
pub struct Refusal {
    pub number: u32,
    pub place: Option<EdgePlace>,
}

// Whether a call is taken on, or refused before any work is done.
pub type Admission = Result<(), Refusal>;

// A refusal that is about no edge.
pub fn numbered(number: u32) -> Refusal
    ensures { result ≡ numbered number }
{
    Refusal {
        number,
        place: None,
    }
}

// A refusal that is about one edge.
pub fn edge_refusal(number: u32, list: ListName, position: u32) -> Refusal
    ensures { result ≡ edge_refusal number list position }
{
    Refusal {
        number,
        place: Some(EdgePlace { list, position }),
    }
}

// The place of a number in the order of refusals: 16 and 17 come between 4 and 5.
fn rank(number: u32) -> u64
    ensures { result ≡ ranked number }
{
    if number == BAD_ORIENTATION {
        return 5;
    }
    if number == BAD_BIT {
        return 6;
    }
    if BAD_COORDINATE < number {
        return number as u64 + 2;
    }
    number as u64
}

// The refusal that comes first of two, by rank; of two of one rank the first given. What is accepted gives way to any refusal.
pub fn first_of(a: Admission, b: Admission) -> Admission
    ensures { result ≡ earlier a b }
{
    match a {
        Ok(()) => b,
        Err(one) => match b {
            Ok(()) => a,
            Err(other) => {
                if rank(other.number) < rank(one.number) {
                    return b;
                }
                a
            }
        },
    }
}
