// What is found wrong with one part of a call: of its lists, of its likelihoods and of its settings, as the refusal that comes of it. A refusal about an edge says which.
#![tactic(auto)]

ghost use Rattle.std.specs.Prelude.{◌≡◌, false, ◌≤◌};
ghost use Rattle.board.specs.Hits.{size};
ghost use Rattle.checks.specs.Checks.{lengths_differ, size_bad, likelihoods_differ};
ghost use Rattle.findings.specs.Findings.{refused_if, refused_at, or_else, fields_found, first_found, list_findings, likelihood_findings, settings_findings};
ghost use Rattle.board.specs.Given.{list_of};

use board::list::List;
use likelihood::Likelihoods;
use refusals::{Admission, ListName};

// Refused by the given number where it applies, else accepted.
pub fn refused_if(bad: bool, number: u32) -> Admission
    ensures { result ≡ refused_if bad number }
{
    if bad {
        return Err(refusals::numbered(number));
    }
    Ok(())
}

// Refused at the position of a bad edge, or accepted where the position is past the edges.
fn refused_at(number: u32, list: ListName, position: usize, edges: usize) -> Admission
    requires { edges ≤ 8192 }
    ensures { result ≡ refused_at number list position edges }
{
    if position < edges {
        return Err(refusals::edge_refusal(number, list, position as u32));
    }
    Ok(())
}

// The first of two that is a refusal.
fn or_else(a: Admission, b: Admission) -> Admission
    ensures { result ≡ or_else a b }
{
    match a {
        Ok(()) => b,
        Err(refusal) => Err(refusal),
    }
}

// Numbers 4, 16, 17 and 5 of one list, whose columns have one length of at most 8,192.
fn fields_admission(name: ListName, list: List) -> Admission
    requires confidences_value { lengths_differ (list_of list) ≡ false }
    requires confidences_bound { size (list_of list) ≤ 8192 }
    ensures { result ≡ fields_found name (list_of list.entry) }
{
    let coordinate = refused_at(
        refusals::BAD_COORDINATE,
        name,
        checks::check::first_bad_coordinate(list.edges.rows, list.edges.cols),
        list.edges.rows.len(),
    );
    let orientation = refused_at(
        refusals::BAD_ORIENTATION,
        name,
        ranges::first_bad_byte(list.edges.orientations, 1),
        list.edges.orientations.len(),
    );
    let bit = refused_at(
        refusals::BAD_BIT,
        name,
        ranges::first_bad_byte(list.edges.bits, 1),
        list.edges.bits.len(),
    );
    let confidence = refused_at(
        refusals::BAD_CONFIDENCE,
        name,
        ranges::first_bad_confidence(list.confidences),
        list.confidences.len(),
    );
    or_else(coordinate, or_else(orientation, or_else(bit, confidence)))
}

// Numbers 2 to 5, 16 and 17 of one list that must have at least `least` edges.
pub fn list_admission(least: usize, name: ListName, list: List) -> Admission
    ensures { result ≡ first_found (list_findings least name (list_of list.entry)) }
{
    if checks::check::lengths_differ(list) {
        return Err(refusals::numbered(refusals::LENGTHS_DIFFER));
    }
    if checks::check::size_bad(least, list.edges.rows.len()) {
        return Err(refusals::numbered(refusals::LIST_SIZE));
    }
    fields_admission(name, list)
}

// Whether the likelihood slices of a list of n edges differ from it in length.
#[tactic(auto, unfolding(checks::specs::Checks::likelihoods_differ))]
fn likelihoods_differ(n: usize, likelihoods: Likelihoods) -> bool
    ensures { result ≡ likelihoods_differ n likelihoods.entry.matches.now likelihoods.entry.mismatches.now }
{
    n != likelihoods.matches.len() || n != likelihoods.mismatches.len()
}

// Numbers 2, 3 and 6 of the likelihoods of a physical list of n edges.
pub fn likelihood_admission(n: usize, likelihoods: Likelihoods) -> Admission
    ensures { result ≡ first_found (likelihood_findings n likelihoods.entry.matches.now likelihoods.entry.mismatches.now) }
{
    if likelihoods_differ(n, likelihoods) {
        return Err(refusals::numbered(refusals::LENGTHS_DIFFER));
    }
    if checks::check::size_bad(0, likelihoods.matches.len()) {
        return Err(refusals::numbered(refusals::LIST_SIZE));
    }
    refused_at(
        refusals::BAD_LIKELIHOOD,
        ListName::Physical,
        checks::check::first_bad_likelihood(likelihoods.matches, likelihoods.mismatches),
        likelihoods.matches.len(),
    )
}

// Numbers 7 to 9: transforms, tables, and what else the call was given.
pub fn settings_admission(transforms: bool, tables: bool, rest: bool) -> Admission
    ensures { result ≡ first_found (settings_findings transforms tables rest) }
{
    let transform = refused_if(transforms, refusals::BAD_TRANSFORM);
    let table = refused_if(tables, refusals::BAD_TABLE);
    let setting = refused_if(rest, refusals::BAD_SETTING);
    or_else(transform, or_else(table, setting))
}
