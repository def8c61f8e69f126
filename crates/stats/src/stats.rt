// Match statistics: how a list fits one known placing.
ghost use Rattle.std.specs.Prelude.{◌≡◌, ◌≤◌, ◌<◌};
ghost use Rattle.board.specs.Hits.{edges};
ghost use Rattle.admission.specs.Accepted.{StatsAccepted};
ghost use Rattle.stats.specs.Stats.{added, hits_and_weight, stats_rate, stats_answer};
ghost use Rattle.board.specs.Given.{board_of, list_of};

use answer::{MatchStats, Square, StatsAnswer};
use board::list::List;
use board::pattern::Tables;
use figures::Fit;

// One edge more: a hit adds one and its confidence.
fn add_edge(sum: Fit, hit: bool, confidence: f32) -> Fit
    requires { sum.hits < 8192 }
    ensures { result ≡ added sum hit confidence }
{
    if hit {
        return Fit {
            hits: sum.hits + 1,
            weight: sum.weight + confidence,
        };
    }
    sum
}

// The hits of a list at one placing, and their confidences added in list order.
fn count_hits(list: List, square: Square, tables: Tables) -> Fit
    requires { StatsAccepted
        (list_of list)
        square.transform square.row square.col (board_of tables) }
    ensures { result ≡ hits_and_weight
        (list_of list.entry)
        square.transform square.row square.col (board_of tables.entry) }
{
    let matrix = lookup::matrix_of(square.transform);
    let mut sum = Fit {
        hits: 0,
        weight: 0.0,
    };
    for i in 0..list.edges.rows.len() {
        let hit = hit::hit_at(list.edges, i, square, matrix, tables);
        sum = add_edge(sum, hit, list.confidences[i]);
    }
    sum
}

// Misses over edges, one f32 division; 1 for no edges.
pub fn rate(edges: u32, hits: u32) -> f32
    requires { (hits ≤ edges) × (edges ≤ 8192) }
    ensures { result ≡ stats_rate edges hits }
{
    if edges == 0 {
        return 1.0;
    }
    figures::rate(edges, hits)
}

// Edges, hits, rate and mean of one list at one known transform and origin, for all inputs.
pub fn match_stats(list: List, square: Square, tables: Tables) -> StatsAnswer
    ensures { result ≡ stats_answer
        (list_of list.entry)
        square.transform square.row square.col (board_of tables.entry) }
{
    stats_admission::stats_admission(list, square, tables)?;
    let counted = count_hits(list, square, tables);
    let edges = list.edges.rows.len() as u32;
    let hits = counted.hits;
    Ok(MatchStats {
        edges,
        hits,
        error_rate: rate(edges, hits),
        mean_confidence: figures::mean(hits, counted.weight),
    })
}
