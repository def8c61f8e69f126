// One list decided: hard selection, then the gate.
#![tactic(auto)]

ghost use Rattle.std.specs.Prelude.{◌≡◌};
ghost use Rattle.board.specs.Hits.{edges};
ghost use Rattle.hard.specs.Select.{SelectReady};
ghost use Rattle.decide.specs.Decide.{gated, DecideDone};
ghost use Rattle.board.specs.Given.{board_of, list_of};

use board::list::List;
use board::pattern::Tables;
use hard::select::Selection;
use refusals::Refusal;
use scan::scan::{Candidate, RunnerUp};

// What one list comes to: refused (no confidence, nothing within the limit, not far enough ahead), or the winner with its runner-up.
pub type Outcome = Result<(Candidate, RunnerUp), Refusal>;

// A selection of a list of so many edges, asked by the gate.
fn ask_gate(selection: Selection, edges: u32) -> Outcome
    ensures { result ≡ gated edges selection }
{
    match selection {
        Err(why) => Err(why),
        Ok((winner, runner_up)) => {
            if figures::passes(edges, winner.hits, runner_up.hits) {
                return Ok((winner, runner_up));
            }
            Err(Refusal {
                number: refusals::NOT_FAR_AHEAD,
                place: None,
            })
        }
    }
}

// Selects on one list and asks the gate. The room is left as it was used.
pub fn decide(
    list: List,
    transforms: &[u8],
    tables: Tables,
    error_limit: f32,
    counts: &mut [u32],
    weights: &mut [f32],
) -> Outcome
    requires { SelectReady (board_of tables) (list_of list) transforms.now counts.old weights.old }
    ensures { DecideDone (board_of tables.entry) (list_of list.entry) transforms.now error_limit counts.old counts.new weights.old weights.new result }
{
    let selection = hard::select::select(list, transforms, tables, error_limit, counts, weights);
    ask_gate(selection, list.edges.rows.len() as u32)
}
