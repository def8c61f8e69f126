// The best placing of a list over its transforms, and the most hits of any other, from the best classes alone.
#![tactic(auto)]

ghost use Rattle.std.specs.Prelude.{◌≡◌, [], ◌-◌, length};
ghost use Rattle.classes.specs.Classes.{CountReady};
ghost use Rattle.lead.specs.Lead.{peak_of, started, merged, lead_after, peaks, LeadReady};
ghost use Rattle.board.specs.Given.{board_of, edges_of};

use board::list::Edges;
use board::pattern::Tables;
use laws::Periods;
use tops::larger;

// One transform: the most hits of an origin, that origin as its key, and the most hits of another origin.
#[derive(Clone, Copy)]
pub struct Peak {
    pub best: u32,
    pub key: usize,
    pub next: u32,
}

// A list over its transforms: the most hits of a placing, its list position and its key, the most hits of another placing, and the first list position that has one with them.
#[derive(Clone, Copy)]
pub struct Lead {
    pub best: u32,
    pub listed: usize,
    pub key: usize,
    pub next: u32,
    pub from: usize,
}

// What one transform comes to: its best classes make its best origin, and the second-best class of one side with the best of the other makes the best of the others.
fn peak_of(edges: Edges, t: u8, tables: Tables) -> Peak
    requires { CountReady (board_of tables) (edges_of edges) t }
    ensures { result ≡ peak_of (board_of tables.entry) (edges_of edges.entry) t }
{
    let periods = Periods {
        h: tables.h.len(),
        v: tables.v.len(),
    };
    let a = tops::side_top(edges, t, true, tables);
    let b = tops::side_top(edges, t, false, tables);
    let cell = b.at % 3 * tables.v.len() + b.at / 3;
    let key = grid::origin::key_of(a.at, cell, periods);
    let next = larger(a.next + b.best, a.best + b.next);
    Peak {
        best: a.best + b.best,
        key,
        next,
    }
}

// The lead of the first transform alone.
fn start(first: Peak) -> Lead
    ensures { result ≡ started first }
{
    Lead {
        best: first.best,
        listed: 0,
        key: first.key,
        next: first.next,
        from: 0,
    }
}

// One transform more, at list position p. Only more hits take the lead, so a tie leaves it to the earlier position.
fn merge(lead: Lead, p: usize, peak: Peak) -> Lead
    ensures { result ≡ merged lead p peak }
{
    if lead.best < peak.best {
        if lead.best < peak.next {
            return Lead {
                best: peak.best,
                listed: p,
                key: peak.key,
                next: peak.next,
                from: p,
            };
        }
        return Lead {
            best: peak.best,
            listed: p,
            key: peak.key,
            next: lead.best,
            from: lead.listed,
        };
    }
    if lead.next < peak.best {
        return Lead {
            best: lead.best,
            listed: lead.listed,
            key: lead.key,
            next: peak.best,
            from: p,
        };
    }
    lead
}

// The lead over all transforms of the list.
pub fn lead_of(edges: Edges, transforms: &[u8], tables: Tables) -> Lead
    requires { LeadReady (board_of tables) (edges_of edges) transforms.now }
    ensures { result ≡ lead_after (peaks (board_of tables.entry) (edges_of edges.entry) transforms.now) (length transforms.now - 1) }
{
    let mut lead = start(peak_of(edges, transforms[0], tables));
    let mut p: usize = 1;
    while p < transforms.len() {
        let peak = peak_of(edges, transforms[p], tables);
        lead = merge(lead, p, peak);
        p += 1;
    }
    lead
}
