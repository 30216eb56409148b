// The main loop of an offset on one array: a front is tidied and its edges collapse where they are, and it is copied only where it splits.
#![tactic(auto)]

ghost use Rattle.std.specs.Prelude.{◌≡◌, cond};
ghost use Rattle.std.specs.Float.Ieee.{le};
ghost use Rattle.front.specs.Sweeps;
ghost use Rattle.front_sweep.specs.Planning;
ghost use Rattle.front_sweep.specs.declared.Plan.TheVariants.{End};
ghost use Rattle.front_sweep.specs.Acts;

use error::Refusal;
use front::{Edge, Event, Loaded, Sweep, Tidy};

// What is planned for a tidied front: it is refused, or has come to the distance, or an event is taken at an offset.
#[derive(Clone, Copy)]
pub enum Plan {
    Refuse,
    End,
    TakeCollapse(usize, f64),
    TakeSplit(usize, usize, f64),
}

// What is done with the front: it is refused, or has come to the distance; an edge collapses, by an event or by tidying, itself or its
// next; the front splits; tidying drops a ring too small, or a spike.
#[derive(Clone, Copy)]
pub enum Act {
    Stop,
    Finish,
    Shrink(usize, f64, bool, bool),
    Cut(usize, usize, f64),
    DropRing(usize),
    DropSpike(usize),
}

// An event that falls on the distance, or beyond it, ends the walk before it.
pub(crate) fn in_time(d: f64, t: f64, p: Plan) -> Plan
    ensures { result ≡ cond (le d t) End p }
{
    if d <= t { Plan::End } else { p }
}

pub(crate) fn plan_of(d: f64, travelled: f64, e: Event) -> Plan
    ensures { result ≡ Planning.plan_of d travelled e }
{
    match e {
        Event::Stalled => Plan::Refuse,
        Event::Never => Plan::End,
        Event::Collapse(k, step) => {
            let t = travelled + step;
            in_time(d, t, Plan::TakeCollapse(k, t))
        }
        Event::Split(v, w, step) => {
            let t = travelled + step;
            in_time(d, t, Plan::TakeSplit(v, w, t))
        }
    }
}

// What a plan does.
pub(crate) fn act_by(p: Plan) -> Act
    ensures { result ≡ Acts.act_by p }
{
    match p {
        Plan::Refuse => Act::Stop,
        Plan::End => Act::Finish,
        Plan::TakeCollapse(slot, t) => Act::Shrink(slot, t, true, false),
        Plan::TakeSplit(v, w, t) => Act::Cut(v, w, t),
    }
}

// What is done, by what tidying finds, or else by the event.
pub(crate) fn act_of(d: f64, travelled: f64, found: Tidy, e: Event) -> Act
    ensures { result ≡ Acts.act_of travelled found (Planning.plan_of d travelled e) }
{
    match found {
        Tidy::Settled => act_by(plan_of(d, travelled, e)),
        Tidy::SmallRing(slot) => Act::DropRing(slot),
        Tidy::Straight(slot) => Act::Shrink(slot, travelled, false, true),
        Tidy::Spike(slot) => Act::DropSpike(slot),
        Tidy::Empty(slot) => Act::Shrink(slot, travelled, false, false),
    }
}

// A sweep that is refused, with what it has completed: no front is left.
pub(crate) fn refused(
    travelled: f64,
    collapses: usize,
    divides: usize,
    joins: usize,
    refusal: Refusal,
) -> Sweep
    ensures { result ≡ Acts.refused travelled collapses divides joins refusal }
{
    Sweep {
        edges: [Edge::UNUSED; 128],
        travelled,
        collapses,
        divides,
        joins,
        ended: false,
        refusal,
    }
}

// The front of the loaded rings at distance d, and the events on the way. Where it is refused, no front is left.
pub fn advance(d: f64, l: Loaded) -> Sweep
    ensures { result ≡ Acts.cleared (Sweeps.offset_rings d l) }
{
    let mut edges = l.edges;
    let mut travelled = 0.0;
    let mut collapses = 0usize;
    let mut divides = 0usize;
    let mut joins = 0usize;
    if !l.refusal.granted() {
        return refused(travelled, collapses, divides, joins, l.refusal);
    }
    let mut k = 0usize;
    let mut m = 0usize;
    // Stays: no plainer, since a step of tidying is none of the 387 stages
    while k < 387 {
        // tidying ends after 129 steps
        let first = front_tidy::find_tidy(&edges, travelled);
        let found = base::choose(m < 129, first, Tidy::Settled);
        let event = front_events::next_event(front_tidy::settled(found), &edges, travelled);
        let act = act_of(d, travelled, found, event);
        match act {
            Act::Stop => {
                return refused(travelled, collapses, divides, joins, Refusal::Splits(d));
            }
            Act::Finish => {
                return Sweep {
                    edges,
                    travelled,
                    collapses,
                    divides,
                    joins,
                    ended: true,
                    refusal: Refusal::Granted,
                };
            }
            Act::Shrink(at, t, event, following) => {
                let slot = base::choose(following, front_lines::edge_at(&edges, at).next, at);
                let next = front_lines::edge_at(&edges, slot).next;
                let Some(vertex) = front_edges::vertex(&edges, next, t) else {
                    return refused(travelled, collapses, divides, joins, Refusal::Splits(d));
                };
                front_edges::set_start(&mut edges, next, vertex.at, t);
                front_edges::remove(&mut edges, slot);
                travelled = t;
                collapses += base::choose(event, 1, 0);
                m = base::choose(event, 0, m + 1);
                k += base::choose(event, 1, 0);
            }
            Act::Cut(v, w, t) => {
                let done = front_split::split(d, edges, travelled, v, w, t);
                if !done.refusal.granted() {
                    return refused(travelled, collapses, divides, joins, done.refusal);
                }
                edges = done.edges;
                travelled = done.travelled;
                divides += done.divides;
                joins += done.joins;
                m = 0;
                k += 1;
            }
            Act::DropRing(slot) => {
                front_tidy::drop_ring(&mut edges, slot);
                m += 1;
            }
            Act::DropSpike(slot) => {
                let done = front_tidy::drop_spike(edges, slot, travelled);
                if done.stalled {
                    return refused(travelled, collapses, divides, joins, Refusal::Splits(d));
                }
                edges = done.edges;
                m += 1;
            }
        }
    }
    refused(
        travelled,
        collapses,
        divides,
        joins,
        Refusal::Unfinished(387, d - travelled),
    )
}
