// The checks of a list behind the early refusals. Each takes every input. A check of a column answers where: the first bad index, or the length.
ghost use Rattle.std.specs.Prelude.{◌≡◌, ◌||◌, not};
ghost use Rattle.board.specs.Given.{list_of};
ghost use Rattle.checks.specs.Checks.{far, far_at, bad_coordinate, bad_likelihood, unlikely_at, first_bad_coordinate, first_bad_likelihood, lengths_differ, size_bad};

use board::list::List;

// The least and the largest row and column.
const LEAST: i32 = -1000000;

const LARGEST: i32 = 1000000;

// How many edges a list may have.
const MAX_EDGES: usize = 8192;

// Whether a coordinate is outside -1,000,000 to 1,000,000.
pub fn is_far(x: i32) -> bool
    ensures { result ≡ far x }
{
    x < LEAST || LARGEST < x
}

// Whether the coordinate at index i is outside; past the end there is none.
fn far_at(xs: &[i32], i: usize) -> bool
    ensures { result ≡ far_at xs.now i }
{
    xs.get(i).is_some_and(|x| is_far(*x))
}

// Whether edge i has a row or column out of range.
fn bad_coordinate_at(rows: &[i32], cols: &[i32], i: usize) -> bool
    ensures { result ≡ bad_coordinate rows.now cols.now i }
{
    far_at(rows, i) || far_at(cols, i)
}

// The first edge with a row or column out of range, or the number of rows.
pub fn first_bad_coordinate(rows: &[i32], cols: &[i32]) -> usize
    ensures { result ≡ first_bad_coordinate rows.now cols.now }
{
    (0..rows.len())
        .find(|i| bad_coordinate_at(rows, cols, *i))
        .unwrap_or(rows.len())
}

// Whether there is no acceptable likelihood at index i.
fn unlikely_at(xs: &[f32], i: usize) -> bool
    ensures { result ≡ unlikely_at xs.now i }
{
    xs.get(i).is_none_or(|x| !likelihood::is_likelihood(*x))
}

// Whether edge i lacks an acceptable match or mismatch likelihood.
fn bad_likelihood_at(matches: &[f32], mismatches: &[f32], i: usize) -> bool
    ensures { result ≡ bad_likelihood matches.now mismatches.now i }
{
    unlikely_at(matches, i) || unlikely_at(mismatches, i)
}

// The first edge with a likelihood that is not acceptable, or the number of match likelihoods.
pub fn first_bad_likelihood(matches: &[f32], mismatches: &[f32]) -> usize
    ensures { result ≡ first_bad_likelihood matches.now mismatches.now }
{
    (0..matches.len())
        .find(|i| bad_likelihood_at(matches, mismatches, *i))
        .unwrap_or(matches.len())
}

// Whether the slices of one list differ in length.
#[tactic(auto, unfolding(crate::specs::Checks::lengths_differ))]
pub fn lengths_differ(list: List) -> bool
    ensures { result ≡ lengths_differ (list_of list.entry) }
{
    let n = list.edges.rows.len();
    n != list.edges.cols.len()
        || n != list.edges.orientations.len()
        || n != list.edges.bits.len()
        || n != list.confidences.len()
}

// Whether a list has fewer than `least` edges or more than 8,192.
#[tactic(auto, unfolding(crate::specs::Checks::size_bad))]
pub fn size_bad(least: usize, n: usize) -> bool
    ensures { result ≡ size_bad least n }
{
    n < least || MAX_EDGES < n
}
