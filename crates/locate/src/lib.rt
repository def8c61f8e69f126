// One list located without tables and without lent room: the placing that leads, its hits, and the first of the others with most hits, or a refusal.
#![tactic(auto)]

ghost use Rattle.std.specs.Prelude.{◌≡◌, ◌*◌, ◌/◌, ◌%◌, ◌≤◌, ◌<◌, length, Err};
ghost use Rattle.refusals.specs.Numbers.{numbered};
ghost use Rattle.locate_admission.specs.LocateAdmission.{LocateAccepted};
ghost use Rattle.locate.specs.Located.{LocatedAs, LocateDone};
ghost use Rattle.board.specs.Given.{board_of, list_of};

use answer::Square;
use board::list::List;
use board::pattern::Tables;
use locate_answer::{LocateAnswer, Located};
use refusals::Refusal;

// The square of a transform at the origin with the given key, on a board of `wide` columns.
fn square_at(transform: u8, key: usize, wide: usize) -> Square
    requires { (0 < wide) × (key ≤ 2250000) }
    ensures { result ≡ record { transform = transform; row = key / wide; col = key % wide } }
{
    let row = (key / wide) as u32;
    let col = (key % wide) as u32;
    Square {
        transform,
        row,
        col,
    }
}

// A refusal that is about no edge, as an answer.
fn refuse(number: u32) -> LocateAnswer
    ensures { result ≡ Err (numbered number) }
{
    Err(Refusal {
        number,
        place: None,
    })
}

// What an accepted list comes to: 10, 11, 13, or what was found.
fn locate_accepted(list: List, transforms: &[u8], tables: Tables, error_limit: f32) -> LocateAnswer
    requires { LocateAccepted (list_of list) transforms.now (board_of tables) error_limit }
    ensures { LocatedAs (board_of tables.entry) (list_of list.entry) transforms.now error_limit result }
{
    if figures::total_confidence(list.confidences) == 0.0 {
        return refuse(refusals::NO_CONFIDENCE);
    }
    let lead = lead::lead_of(list.edges, transforms, tables);
    let edges = list.edges.rows.len() as u32;
    if scan::record::over_limit(edges, lead.best, error_limit) {
        return refuse(refusals::NONE_WITHIN_LIMIT);
    }
    if figures::passes(edges, lead.best, lead.next) {
        let wide = 3 * tables.v.len();
        let from = lead.from;
        let listed = lead.listed;
        let second = transforms[from];
        let key = firsts::first_key(list.edges, second, tables, lead.next);
        let square = square_at(transforms[listed], lead.key, wide);
        let runner_up = square_at(second, key, wide);
        return Ok(Located {
            square,
            hits: lead.best,
            runner_up,
            runner_up_hits: lead.next,
        });
    }
    refuse(refusals::NOT_FAR_AHEAD)
}

// Locates one list without lent room, for all inputs: the early refusals, then what an accepted list comes to.
pub fn locate(list: List, transforms: &[u8], tables: Tables, error_limit: f32) -> LocateAnswer
    ensures { LocateDone (board_of tables.entry) (list_of list.entry) transforms.now error_limit result }
{
    locate_admission::locate_admission(list, transforms, tables, error_limit)?;
    locate_accepted(list, transforms, tables, error_limit)
}
