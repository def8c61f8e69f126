// Exact decode (request C-15): which square the camera faces, judged by hits, with weights that add exactly, or a refusal.
#![tactic(auto)]

ghost use Rattle.std.specs.Prelude.{◌≡◌, length};
ghost use Rattle.decode_exact.specs.ExactAnswer.{ExactCallDone};
ghost use Rattle.admission.specs.CallsGiven.{hard_call_of};

use admission::call::HardCall;
use exact_answer::ExactAnswer;
use exact_core::exact_core;
use laws::Periods;

// Which square the camera faces by its two edge lists, or a refusal, for all inputs: as hard decode, but weights are whole numbers of units. After the early refusals (1 to 9, 16 and 17) the lent
// room is untouched; after every other call 9L + 1,503 u32 and as many u64 of it are zero, where the horizontal table has L patterns (3,006 on the flat board). The u32 room is asked for and set
// to zero as the request says; hits and weight of a cell stand together in the u64 room.
pub fn decode_exact(call: HardCall, counts: &mut [u32], units: &mut [u64]) -> ExactAnswer
    ensures { ExactCallDone
        (hard_call_of call.entry)
        counts.old counts.new units.old units.new result }
{
    let admitted = admission::refusal::hard_admission(call, counts.len(), units.len());
    match admitted {
        Err(refusal) => Err(refusal),
        Ok(()) => {
            let answer = exact_core(call, units);
            let used = room::used_by_tables(Periods {
                h: call.tables.h.len(),
                v: call.tables.v.len(),
            });
            clearing::clear(counts, used);
            clearing::clear(units, used);
            answer
        }
    }
}
