// Hard decode: which square the camera faces, judged by hits, or a refusal.
#![tactic(auto)]

ghost use Rattle.std.specs.Prelude.{◌≡◌, ◌≤◌, ◌<◌, length};
ghost use Rattle.decode_hard.specs.HardAnswer.{HardDone};
ghost use Rattle.admission.specs.CallsGiven.{hard_call_of};

use admission::call::HardCall;
use answer::Answer;
use hard_core::hard_core;
use laws::Periods;

// Which square the camera faces by its two edge lists, or a refusal, for all inputs. After the early refusals (1 to 9, 16 and 17) the lent room is untouched; after every other call
// what was used of it is zero: 9L + 1,503 u32 and as many f32, where the horizontal table has L patterns (3,006 on the flat board).
pub fn decode_hard(call: HardCall, counts: &mut [u32], weights: &mut [f32]) -> Answer
    ensures { HardDone
        (hard_call_of call.entry)
        counts.old counts.new weights.old weights.new result }
{
    let admitted = admission::refusal::hard_admission(call, counts.len(), weights.len());
    match admitted {
        Err(refusal) => Err(refusal),
        Ok(()) => {
            let answer = hard_core(call, counts, weights);
            let used = room::used_by_tables(Periods {
                h: call.tables.h.len(),
                v: call.tables.v.len(),
            });
            clearing::clear(counts, used);
            clearing::clear(weights, used);
            answer
        }
    }
}
