// Hard selection on one list before the gate, for all inputs.
use admission::call::HardCall;
use hard::select::Selection;

// What the checks refuse of a call with the logical list alone, else what the selection comes to.
pub(crate) fn select(call: HardCall, counts: &mut [u32], weights: &mut [f32]) -> Selection {
    let own = HardCall {
        logical: call.logical,
        physical: call.logical,
        transforms: call.transforms,
        tables: call.tables,
        error_limit: call.error_limit,
    };
    admission::refusal::hard_admission(own, counts.len(), weights.len())?;
    hard::select::select(
        call.logical,
        call.transforms,
        call.tables,
        call.error_limit,
        counts,
        weights,
    )
}
