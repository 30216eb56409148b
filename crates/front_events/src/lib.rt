// The search for the next event of the front: the soonest collapse and the soonest split.
#![tactic(auto)]

ghost use Rattle.std.specs.Prelude.{◌≡◌, cond};
ghost use Rattle.front.specs.NextEvent;
ghost use Rattle.front.specs.declared.Event.TheVariants.{Never};
ghost use Rattle.front_events.specs.Found;

use front::{Edge, Event, Length, Line, Moving};
use plane::PlanarPoint;

// Whether an edge is gone sooner than the soonest so far, and after which step.
#[derive(Clone, Copy)]
pub struct Gone {
    pub sooner: bool,
    pub step: f64,
}

// A live edge whose ends have velocities: whether and when it is gone; its start vertex, and whether the front turns right there.
#[derive(Clone, Copy)]
pub struct Look {
    pub gone: Gone,
    pub start: Moving,
    pub reflex: bool,
}

// How fast a vertex with velocity v leaves an edge's line behind: below 0 it comes to it.
pub(crate) fn closing(target: Edge, v: PlanarPoint) -> f64
    ensures { result ≡ Found.closing target v }
{
    plane::dot(front_lines::normal(front_lines::edge_line(target)), v) - 1.0
}

// After which step a vertex at p comes to an edge's line, at this speed.
pub(crate) fn step_to(target: Edge, p: PlanarPoint, t: f64, speed: f64) -> f64
    ensures { result ≡ Found.step_to target p t speed }
{
    let line = front_lines::edge_line(target);
    (line.c + t - plane::dot(front_lines::normal(line), p)) / speed
}

// Whether p lies between two points along u, with the slack.
pub(crate) fn within(u: PlanarPoint, p: PlanarPoint, from: PlanarPoint, to: PlanarPoint) -> bool
    ensures { result ≡ NextEvent.hit_within u p from to }
{
    let past = plane::dot(u, plane::sub(p, from));
    let left = plane::dot(u, plane::sub(to, p));
    (past >= -Edge::ON_EDGE) & (left >= -Edge::ON_EDGE)
}

// Whether a vertex that has come to an edge's line at p hits the edge, given the edge's vertices there, if they have velocities.
pub(crate) fn strike(
    target: Edge,
    p: PlanarPoint,
    from: Option<Moving>,
    to: Option<Moving>,
) -> Option<bool>
    ensures { result ≡ Found.strike target p from to }
{
    let from = from?;
    let to = to?;
    let u = front_lines::direction(front_lines::edge_line(target));
    Some(within(u, p, from.at, to.at))
}

// When an edge of this length is gone, if it shrinks. The step stands beside the test, not in an `Option`: the search chooses by the test
// and has no branch there.
pub(crate) fn shrink(length: Length, shrinks: bool, soon: f64) -> Gone
    ensures { result ≡ Found.shrink length shrinks soon }
{
    let step = math::max(length.value, 0.0) / -length.rate;
    Gone {
        sooner: (length.rate < 0.0) & (!shrinks | (step < soon)),
        step,
    }
}

// Whether the front turns right from one line to the next.
pub(crate) fn reflex(a: Line, b: Line) -> bool
    ensures { result ≡ Found.reflex a b }
{
    let side = plane::cross(front_lines::direction(a), front_lines::direction(b));
    !(side >= 0.0)
}

// The event that was found: a split goes before a collapse only if it is sooner by more than the slack.
pub(crate) fn event_of(
    t: f64,
    shrinks: bool,
    gone: usize,
    soon: f64,
    splits: bool,
    vertex: usize,
    hit: usize,
    step: f64,
) -> Event
    ensures { result ≡ NextEvent.event_of t (Found.search_of shrinks gone soon splits vertex hit step) }
{
    let slack = Edge::TIE * (1.0 + t);
    let first = !shrinks | (step < soon - slack);
    if splits & first {
        return Event::Split(vertex, hit, step);
    }
    if shrinks {
        return Event::Collapse(gone, soon);
    }
    Event::Never
}

// The start vertex of an edge at offset t, and its velocity, given the edge before it.
pub(crate) fn start_of(before: Edge, e: Edge, t: f64) -> Option<Moving>
    ensures { result ≡ Found.start_of before e t }
{
    front_lines::vertex_by(front_lines::edge_line(before), e, t)
}

// A live edge e, with its next, `after`, and the edge before each of them. None: an end has no velocity.
pub(crate) fn look_of(
    before: Edge,
    e: Edge,
    back: Edge,
    after: Edge,
    t: f64,
    shrinks: bool,
    soon: f64,
) -> Option<Look>
    ensures { result ≡ Found.look_of before e back after t shrinks soon }
{
    let start = start_of(before, e, t)?;
    let length = front_lines::length_between(e, Some(start), start_of(back, after, t))?;
    Some(Look {
        gone: shrink(length, shrinks, soon),
        start,
        reflex: reflex(front_lines::edge_line(before), front_lines::edge_line(e)),
    })
}

// A vertex at p with velocity v comes after a step to the line of an edge, `target`, with its next, `after`, and the edge before each of
// them. None: a vertex of the edge has no velocity.
pub(crate) fn strike_at(
    before: Edge,
    target: Edge,
    back: Edge,
    after: Edge,
    p: PlanarPoint,
    v: PlanarPoint,
    step: f64,
    t: f64,
) -> Option<bool>
    ensures { result ≡ Found.strike_at before target back after p v step t }
{
    let from = start_of(before, target, t + step);
    let to = start_of(back, after, t + step);
    strike(target, front_lines::moved_by(p, v, step), from, to)
}

// The soonest event after offset t of a front that is tidied; of another, none. A vertex without a velocity ends the search.
pub fn next_event(tidied: bool, edges: &[Edge; 128], t: f64) -> Event
    ensures { result ≡ cond tidied (NextEvent.next_event edges.now t) Never }
{
    if !tidied {
        return Event::Never;
    }
    let mut shrinks = false;
    let mut gone = 0;
    let mut soon = 0.0;
    let mut splits = false;
    let mut vertex = 0;
    let mut hit = 0;
    let mut step = 0.0;
    // past this many slots no edge is alive
    let mut used = 0;
    for k in 0..128 {
        used = base::choose(edges[k].alive, k + 1, used);
    }
    for slot in 0..used {
        let e = edges[slot];
        if e.alive {
            // the edge before e, the edge after it, and the one before that
            let before = front_lines::edge_at(edges, e.previous);
            let after = front_lines::edge_at(edges, e.next);
            let back = front_lines::edge_at(edges, after.previous);
            let Some(look) = look_of(before, e, back, after, t, shrinks, soon) else {
                return Event::Stalled;
            };
            shrinks = shrinks | look.gone.sooner;
            gone = base::choose(look.gone.sooner, slot, gone);
            soon = base::choose(look.gone.sooner, look.gone.step, soon);
            let p = look.start.at;
            let v = look.start.velocity;
            let end = base::choose(look.reflex, used, 0);
            for other in 0..end {
                let target = edges[other];
                let speed = closing(target, v);
                if target.alive & ((other != slot) & (other != e.previous)) & !(speed >= 0.0) {
                    let s = step_to(target, p, t, speed);
                    if !(s < 0.0) & !(splits & (s >= step)) {
                        // the same of the target
                        let first = front_lines::edge_at(edges, target.previous);
                        let last = front_lines::edge_at(edges, target.next);
                        let own = front_lines::edge_at(edges, last.previous);
                        let Some(on) = strike_at(first, target, own, last, p, v, s, t) else {
                            return Event::Stalled;
                        };
                        splits = splits | on;
                        vertex = base::choose(on, slot, vertex);
                        hit = base::choose(on, other, hit);
                        step = base::choose(on, s, step);
                    }
                }
            }
        }
    }
    event_of(t, shrinks, gone, soon, splits, vertex, hit, step)
}
