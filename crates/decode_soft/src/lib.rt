// Soft decode: which square the camera faces, judged by likelihoods and then by hits, or a refusal.
#![tactic(auto)]

ghost use Rattle.std.specs.Prelude.{◌≡◌, ◌≤◌, ◌<◌, length};
ghost use Rattle.decode_soft.specs.SoftAnswer.{SoftDone};
ghost use Rattle.admission.specs.CallsGiven.{soft_call_of};

use admission::call::SoftCall;
use answer::SoftAnswer;
use laws::Periods;
use soft_core::soft_core;

// Which square the camera faces by the likelihoods of the physical list, confirmed by the hits of the logical list, or a refusal, for all inputs. After
// the early refusals (1 to 9, 16 and 17) the lent room is untouched; after every other call what was used of it is zero: 9L + 1,503 u32, as many f32 and 15L + 2,505 i64, where the horizontal table has L patterns.
pub fn decode_soft(
    call: SoftCall,
    counts: &mut [u32],
    weights: &mut [f32],
    sums: &mut [i64],
) -> SoftAnswer
    ensures { SoftDone
        (soft_call_of call.entry)
        counts.old counts.new weights.old weights.new sums.old sums.new result }
{
    let admitted = soft_admission::soft_admission(call, counts.len(), weights.len(), sums.len());
    match admitted {
        Err(refusal) => Err(refusal),
        Ok(()) => {
            let answer = soft_core(call, counts, weights, sums);
            let periods = Periods {
                h: call.hard.tables.h.len(),
                v: call.hard.tables.v.len(),
            };
            let used = room::used_by_tables(periods);
            let used_sums = room::used_by_sums(periods);
            clearing::clear(counts, used);
            clearing::clear(weights, used);
            clearing::clear(sums, used_sums);
            answer
        }
    }
}
