// Document 01's answer of ten fields, derived from the answers that say by their names what they count: for comparisons with the Rust, and for those who knew the old answer.
#![tactic(auto)]

ghost use Rattle.std.specs.Prelude.{◌≡◌};
ghost use Rattle.ten_fields.specs.TenFields.{any_of_hard, any_of_soft, as_score, ten_of_hard, ten_of_soft, ten_fields};

use answer::{Answer, AnyAnswer, Decoded, SoftAnswer, SoftDecoded, Square};
use refusals::Refusal;

// The ten fields. The runner-up's score is its hits, in hard and in soft answers; the margin is in hits in the one and a log likelihood per edge in the other: whoever subtracts, mixes them up.
#[derive(Clone, Copy)]
pub struct TenFields {
    pub square: Square,
    pub hits: u32,
    pub edges: u32,
    pub weighted_score: f32,
    pub error_rate: f32,
    pub mean_confidence: f32,
    pub best_score: f32,
    pub runner_up_score: f32,
    pub margin: f32,
    pub runner_up: Square,
}

// The answer of document 01.
pub type TenAnswer = Result<TenFields, Refusal>;

// A hard answer as one of either decoder's.
pub fn any_of_hard(answer: Answer) -> AnyAnswer
    ensures { result ≡ any_of_hard answer }
{
    match answer {
        Ok(d) => AnyAnswer::Hard(d),
        Err(refusal) => AnyAnswer::Refused(refusal),
    }
}

// A soft answer as one of either decoder's.
pub fn any_of_soft(answer: SoftAnswer) -> AnyAnswer
    ensures { result ≡ any_of_soft answer }
{
    match answer {
        Ok(d) => AnyAnswer::Soft(d),
        Err(refusal) => AnyAnswer::Refused(refusal),
    }
}

// A count as a score. Above 2^24, which no answer has, it is no number.
fn score_of(hits: u32) -> f32
    ensures { result ≡ as_score hits }
{
    if 16777216 < hits {
        return 0.0 / 0.0;
    }
    hits as f32
}

// The ten fields of a found hard answer.
fn ten_of_hard(hard: Decoded) -> TenFields
    ensures { result ≡ ten_of_hard hard }
{
    let square = hard.square;
    let runner_up = hard.runner_up;
    let runner_up_score = score_of(hard.runner_up_hits);
    let margin = score_of(hard.margin_hits);
    TenFields {
        square,
        hits: hard.hits,
        edges: hard.edges,
        weighted_score: hard.weighted_score,
        error_rate: hard.error_rate,
        mean_confidence: hard.mean_confidence,
        best_score: hard.best_score,
        runner_up_score,
        margin,
        runner_up,
    }
}

// The ten fields of a found soft answer: the second by likelihood had no place there.
fn ten_of_soft(soft: SoftDecoded) -> TenFields
    ensures { result ≡ ten_of_soft soft }
{
    let square = soft.square;
    let runner_up = soft.runner_up;
    let runner_up_score = score_of(soft.runner_up_hits);
    TenFields {
        square,
        hits: soft.hits,
        edges: soft.edges,
        weighted_score: soft.weighted_score,
        error_rate: soft.error_rate,
        mean_confidence: soft.mean_confidence,
        best_score: soft.best_score,
        runner_up_score,
        margin: soft.margin,
        runner_up,
    }
}

// The answer of document 01, of either decoder's answer.
pub fn ten_fields(answer: AnyAnswer) -> TenAnswer
    ensures { result ≡ ten_fields answer }
{
    match answer {
        AnyAnswer::Hard(d) => Ok(ten_of_hard(d)),
        AnyAnswer::Soft(d) => Ok(ten_of_soft(d)),
        AnyAnswer::Refused(refusal) => Err(refusal),
    }
}
