// Whether a soft call is taken on: the early refusals 1 to 9, 16 and 17, the first in their order over both lists and the likelihoods, or accepted.
#![tactic(auto)]

ghost use Rattle.std.specs.Prelude.{◌≡◌, ◌||◌, not};
ghost use Rattle.laws.specs.Words.{one_f};
ghost use Rattle.likelihood.specs.Likelihood.{likelihoods};
ghost use Rattle.ranges.specs.Ranges.{in_range, margin_top};
ghost use Rattle.admission.specs.Refusals.{soft_room_short, soft_admission};
ghost use Rattle.admission.specs.CallsGiven.{soft_call_of};

use admission::call::SoftCall;
use admission::refusal::{asked_length, room_short, tables_bad};
use findings::{likelihood_admission, list_admission, refused_if, settings_admission};
use refusals::{Admission, ListName, first_of};

// Whether the room of a soft call with l horizontal patterns is too short: there is room for sums besides.
fn soft_room_short(l: usize, counts: usize, weights: usize, sums: usize) -> bool
    ensures { result ≡ soft_room_short l counts weights sums }
{
    if room_short(l, counts, weights) {
        return true;
    }
    sums < room::sums_for(asked_length(l))
}

// Whether the error limit or the soft margin is out of range.
fn limits_bad(error_limit: f32, soft_margin: f32) -> bool
    ensures { result ≡ not (in_range one_f error_limit) || not (in_range margin_top soft_margin) }
{
    if ranges::in_range(error_limit, 1.0f32) {
        return !ranges::in_range(soft_margin, 65536.0f32);
    }
    true
}

// The early refusals of a soft call: the physical list has two likelihood slices besides, and the soft margin is checked with the limit.
pub fn soft_admission(call: SoftCall, counts: usize, weights: usize, sums: usize) -> Admission
    ensures { result ≡ soft_admission
        (soft_call_of call.entry) counts weights sums }
{
    let room = refused_if(
        soft_room_short(call.hard.tables.h.len(), counts, weights, sums),
        refusals::ROOM_TOO_SHORT,
    );
    let logical = list_admission(1, ListName::Logical, call.hard.logical);
    let physical = list_admission(1, ListName::Physical, call.hard.physical);
    let likelihoods = likelihood_admission(call.hard.physical.edges.rows.len(), call.likelihoods);
    let settings = settings_admission(
        ranges::transforms_bad(call.hard.transforms),
        tables_bad(call.hard.tables),
        limits_bad(call.hard.error_limit, call.soft_margin),
    );
    first_of(
        room,
        first_of(first_of(first_of(logical, physical), likelihoods), settings),
    )
}
