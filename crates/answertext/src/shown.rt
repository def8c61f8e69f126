// What the found answers of all decoders have in common: the square and how well a list fits there, and the runner-up by hits.
ghost use Rattle.std.specs.Prelude.{◌≡◌};
ghost use Rattle.answertext.specs.Shown.{shown_of_hard, shown_of_soft, shown_of_exact, shown_of_located};

use answer::{Decoded, SoftDecoded, Square};
use exact_answer::ExactDecoded;
use locate_answer::Located;

// The common part of a found answer, which words and picture show alike.
#[derive(Clone, Copy)]
pub struct Shown {
    pub square: Square,
    pub hits: u32,
    pub edges: u32,
    pub error_rate: f32,
    pub runner_up: Square,
    pub runner_up_hits: u32,
}

// Of a hard answer.
impl From<Decoded> for Shown {
    ghost from_gives = { λ d shown. shown ≡ shown_of_hard d };

    fn from(d: Decoded) -> Shown {
        Shown {
            square: d.square,
            hits: d.hits,
            edges: d.edges,
            error_rate: d.error_rate,
            runner_up: d.runner_up,
            runner_up_hits: d.runner_up_hits,
        }
    }
}

// Of a soft answer: the second by likelihood is told beside it.
impl From<SoftDecoded> for Shown {
    ghost from_gives = { λ d shown. shown ≡ shown_of_soft d };

    fn from(d: SoftDecoded) -> Shown {
        Shown {
            square: d.square,
            hits: d.hits,
            edges: d.edges,
            error_rate: d.error_rate,
            runner_up: d.runner_up,
            runner_up_hits: d.runner_up_hits,
        }
    }
}

// Of an exact answer: the weights are told beside it.
impl From<ExactDecoded> for Shown {
    ghost from_gives = { λ d shown. shown ≡ shown_of_exact d };

    fn from(d: ExactDecoded) -> Shown {
        Shown {
            square: d.square,
            hits: d.hits,
            edges: d.edges,
            error_rate: d.error_rate,
            runner_up: d.runner_up,
            runner_up_hits: d.runner_up_hits,
        }
    }
}

impl Shown {
    // Of what is located without tables, with the edges of its list and the error rate there, which that answer has not.
    pub fn of_located(l: Located, edges: u32, error_rate: f32) -> Shown
        ensures { result ≡ shown_of_located l edges error_rate }
    {
        Shown {
            square: l.square,
            hits: l.hits,
            edges,
            error_rate,
            runner_up: l.runner_up,
            runner_up_hits: l.runner_up_hits,
        }
    }

    // The hits that the square has more than the runner-up, which never has more.
    pub(crate) fn lead(self) -> u32 {
        self.hits.wrapping_sub(self.runner_up_hits)
    }
}
