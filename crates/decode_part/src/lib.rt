// Decode over a part of a flat board (request C-20): which square of the part the camera faces, judged by hits, with weights that add exactly, or a refusal.
#![tactic(auto)]

ghost use Rattle.std.specs.Prelude.{◌≡◌, length};
ghost use Rattle.decode_part.specs.PartAnswer.{PartCallDone};
ghost use Rattle.admission.specs.CallsGiven.{hard_call_of};

use admission::call::HardCall;
use laws::Periods;
use part::Part;
use part_answer::PartAnswer;
use part_core::part_core;

// Which square of a part the camera faces by its two edge lists, or a refusal, for all inputs: as exact decode, but only origins of the part count, and the board is flat. After the early refusals
// (1 to 9, 16 and 17) the lent room is untouched; after every other call 3,006 u32 and 3,006 u64 of it are zero.
pub fn decode_part(call: HardCall, part: Part, counts: &mut [u32], units: &mut [u64]) -> PartAnswer
    ensures { PartCallDone
        (hard_call_of call.entry) part
        counts.old counts.new units.old units.new result }
{
    let admitted = part_admission::part_admission(call, part, counts.len(), units.len());
    match admitted {
        Err(refusal) => Err(refusal),
        Ok(()) => {
            let answer = part_core(call, part, units);
            let used = room::used_by_tables(Periods {
                h: call.tables.h.len(),
                v: call.tables.v.len(),
            });
            clearing::clear(counts, used);
            clearing::clear(units, used);
            answer
        }
    }
}
