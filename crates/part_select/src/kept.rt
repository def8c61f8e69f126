// What a selection over the placings of a part comes to, by value.
use exact_scan::kept::ExactWinner;
use refusals::Refusal;

// The runner-up, with its hits, its weight and where it is: none is shown where the part has one placing only.
pub type PartNext = Option<ExactWinner>;

// Refused (no confidence, nothing within the limit), or the winner with its runner-up.
pub type PartSelection = Result<(ExactWinner, PartNext), Refusal>;
