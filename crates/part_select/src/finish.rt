// What the scan of a part comes to.
ghost use Rattle.std.specs.Prelude.{◌≡◌, Err};
ghost use Rattle.refusals.specs.Numbers.{numbered, none_within_limit};
ghost use Rattle.part_select.specs.Select.{OfferOk, winner_of, finished_with, part_finished, SoundPart};

use crate::kept::{PartNext, PartSelection};
use board::edge::Placing;
use exact_scan::kept::ExactWinner;
use part_scan::kept::{Offer, PartKept};
use refusals::Refusal;
use scan::record::over_limit;
use values::table::{hits_of, weight_of};

// The refusal where no placing is within the limit.
fn none_within() -> PartSelection
    ensures { result ≡ Err (numbered none_within_limit) }
{
    Err(Refusal {
        number: refusals::NONE_WITHIN_LIMIT,
        place: None,
    })
}

// A kept placing with its hits, its weight and where it is, from its value and its number.
fn winner_of(c: Offer, edges: u32) -> ExactWinner
    requires { OfferOk edges c }
    ensures { result ≡ winner_of c }
{
    let hits = hits_of(c.value) as u32;
    let weight = weight_of(c.value);
    let key = c.number % 251001;
    let placing = Placing {
        listed: c.number / 251001,
        row: (key / 501) as u32,
        col: (key % 501) as u32,
    };
    ExactWinner {
        hits,
        weight,
        placing,
    }
}

// Refused where the winner is over the limit, since no placing of the part has more hits; else the winner with what is shown beside it.
fn finish_with(c: Offer, next: PartNext, edges: u32, error_limit: f32) -> PartSelection
    requires { OfferOk edges c }
    ensures { result ≡ finished_with edges error_limit c next }
{
    let winner = winner_of(c, edges);
    if over_limit(edges, winner.hits, error_limit) {
        return none_within();
    }
    Ok((winner, next))
}

// What the scan of a part comes to.
pub fn finish_part(kept: PartKept, edges: u32, error_limit: f32) -> PartSelection
    requires { SoundPart edges kept }
    ensures { result ≡ part_finished edges error_limit kept }
{
    match kept {
        PartKept::Nobody => none_within(),
        PartKept::One(w) => finish_with(w, None, edges, error_limit),
        PartKept::Two(w, r) => {
            let other = winner_of(r, edges);
            finish_with(w, Some(other), edges, error_limit)
        }
    }
}
