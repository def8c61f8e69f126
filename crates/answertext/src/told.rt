// An answer of any decoder, as it is told: hard and soft decode's, exact decode's, or that of the engine without tables.
ghost use Rattle.std.specs.Prelude.{◌≡◌};
ghost use Rattle.answertext.specs.Told.{told_of_any, told_of_exact, shown_of_told};

use crate::shown::Shown;
use answer::{AnyAnswer, Decoded, SoftDecoded};
use exact_answer::{ExactAnswer, ExactDecoded};
use refusals::Refusal;

// How a view was decoded: by hits, by log likelihoods, exactly, or without tables.
#[derive(Clone, Copy, PartialEq, Eq)]
pub enum How {
    Hard,
    Soft,
    Exact,
    Located,
}

// The answer, found by one of the decoders or refused.
#[derive(Clone, Copy)]
pub enum Told {
    Hard(Decoded),
    Soft(SoftDecoded),
    Exact(ExactDecoded),
    Located(Shown),
    Refused(Refusal),
}

// Hard or soft decode's answer.
impl From<AnyAnswer> for Told {
    ghost from_gives = { λ answer told. told ≡ told_of_any answer };

    fn from(answer: AnyAnswer) -> Told {
        match answer {
            AnyAnswer::Hard(d) => Told::Hard(d),
            AnyAnswer::Soft(d) => Told::Soft(d),
            AnyAnswer::Refused(refusal) => Told::Refused(refusal),
        }
    }
}

// Exact decode's answer.
impl From<ExactAnswer> for Told {
    ghost from_gives = { λ answer told. told ≡ told_of_exact answer };

    fn from(answer: ExactAnswer) -> Told {
        match answer {
            Ok(d) => Told::Exact(d),
            Err(refusal) => Told::Refused(refusal),
        }
    }
}

impl Told {
    // What a found answer shows; nothing of a refusal.
    pub fn shown(self) -> Option<Shown>
        ensures { result ≡ shown_of_told self }
    {
        match self {
            Told::Hard(d) => Some(d.into()),
            Told::Soft(d) => Some(d.into()),
            Told::Exact(d) => Some(d.into()),
            Told::Located(shown) => Some(shown),
            Told::Refused(_) => None,
        }
    }
}
