// The weight of a list at one known square (request C-15), counted edge by edge, without tables.
#![tactic(auto)]

ghost use Rattle.std.specs.Prelude.{◌≡◌, ◌+◌, ◌≤◌, ◌^◌};
ghost use Rattle.laws.specs.Words.{put, Weight};
ghost use Rattle.admission.specs.Accepted.{StatsAccepted};
ghost use Rattle.unit_terms.specs.Values.{unit_of};
ghost use Rattle.exact.specs.Winner.{weight_of_square};
ghost use Rattle.board.specs.Given.{board_of, list_of};

use answer::Square;
use board::list::List;
use board::pattern::Tables;
use unit_terms::value_of;
use values::table::weight_of;

// One edge more: a hit adds its units, a miss nothing.
fn add_units(sum: u64, hit: bool, confidence: f32) -> u64
    requires { (sum ≤ 2 ^ 37) × Weight confidence 1 }
    ensures { result ≡ put ◌+◌ hit sum (unit_of confidence) }
{
    if hit {
        let value = value_of(confidence);
        return sum + weight_of(value);
    }
    sum
}

// The weight of a list at one square, in units of 2^-24: the units of its edges that are hits there.
pub fn weight_at(list: List, square: Square, tables: Tables) -> u64
    requires { StatsAccepted
        (list_of list)
        square.transform square.row square.col (board_of tables) }
    ensures { result ≡ weight_of_square (board_of tables.entry)
        (list_of list.entry)
        square.transform square.row square.col }
{
    let matrix = lookup::matrix_of(square.transform);
    let mut sum: u64 = 0;
    for i in 0..list.edges.rows.len() {
        let hit = hit::hit_at(list.edges, i, square, matrix, tables);
        sum = add_units(sum, hit, list.confidences[i]);
    }
    sum
}
