// The winner and the runner-up of the placings so far, where each placing comes later than all before it.
ghost use Rattle.std.specs.Prelude.{◌≡◌};
ghost use Rattle.part_scan.specs.Kept.{second_of, next_of, offered_one, offered_two, offered};

use values::table::hits_of;

// A placing as it is offered: its value, and its number, list position · 251,001 + row · 501 + column, so that the earlier one has the lower number.
#[derive(Clone, Copy)]
pub struct Offer {
    pub value: u64,
    pub number: usize,
}

// What is kept of the placings so far: the winner, and the runner-up as soon as there are two.
#[derive(Clone, Copy)]
pub enum PartKept {
    Nobody,
    One(Offer),
    Two(Offer, Offer),
}

// The runner-up behind a new winner: the old winner w, unless the old runner-up r has as many hits and stands earlier.
fn second_of(w: Offer, r: Offer) -> Offer
    ensures { result ≡ second_of w r }
{
    if hits_of(w.value) == hits_of(r.value) {
        if r.number < w.number {
            return r;
        }
    }
    w
}

// The runner-up after a placing c that is no winner: the old one, unless c has more hits.
fn next_of(r: Offer, c: Offer) -> Offer
    ensures { result ≡ next_of r c }
{
    if hits_of(r.value) < hits_of(c.value) {
        return c;
    }
    r
}

// The second placing: the winner is the one of greater value, the earlier one on a tie.
fn offer_one(w: Offer, c: Offer) -> PartKept
    ensures { result ≡ offered_one w c }
{
    if w.value < c.value {
        return PartKept::Two(c, w);
    }
    PartKept::Two(w, c)
}

// A placing more, where there are a winner and a runner-up.
fn offer_two(w: Offer, r: Offer, c: Offer) -> PartKept
    ensures { result ≡ offered_two w r c }
{
    if w.value < c.value {
        let s = second_of(w, r);
        return PartKept::Two(c, s);
    }
    let s = next_of(r, c);
    PartKept::Two(w, s)
}

// What is kept after the placing c.
pub fn keep(kept: PartKept, c: Offer) -> PartKept
    ensures { result ≡ offered kept c }
{
    match kept {
        PartKept::Nobody => PartKept::One(c),
        PartKept::One(w) => offer_one(w, c),
        PartKept::Two(w, r) => offer_two(w, r, c),
    }
}
