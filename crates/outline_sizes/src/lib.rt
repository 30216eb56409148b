// Measures of an outline that is handed in, its clearance, and whether two outlines meet: question 21 first.
#![tactic(auto)]

ghost use Rattle.std.specs.Prelude.{◌≡◌};
ghost use Rattle.error.specs.declared.Refusal.TheVariants.{Granted};
ghost use Rattle.outline.specs.Outlines;
ghost use Rattle.outline_ask.specs.Queries;

use areas::{Area, NewArea};
use error::Refusal;
use outline::entry;
use outline_ask::{Measured, Met};
use ring_cross::{EdgePair, pair};

// Beside a refusal: 0.
pub(crate) fn unmeasured(r: Refusal) -> Measured
    ensures { result ≡ Queries.unmeasured r }
{
    Measured {
        refusal: r,
        value: 0.0,
    }
}

// The enclosed area.
pub fn area(ps: &[f64], n: usize) -> NewArea
    ensures { result ≡ Queries.area ps.now n }
{
    let r = entry::ask_ring(ps, n, Refusal::Granted);
    if r.granted() {
        NewArea {
            refusal: Refusal::Granted,
            area: Area {
                value: ring_measure::area(ps, n),
            },
        }
    } else {
        NewArea {
            refusal: r,
            area: Area::ZERO,
        }
    }
}

// The length of the boundary; an infinite one reads 0.
pub fn perimeter(ps: &[f64], n: usize) -> Measured
    ensures { result ≡ Queries.perimeter ps.now n }
{
    let r = entry::ask_ring(ps, n, Refusal::Granted);
    if r.granted() {
        Measured {
            refusal: Refusal::Granted,
            value: ring_measure::perimeter(ps, n),
        }
    } else {
        unmeasured(r)
    }
}

// The largest coordinate, without its sign.
pub fn extent(ps: &[f64], n: usize) -> Measured
    ensures { result ≡ Queries.extent ps.now n }
{
    let r = entry::ask_ring(ps, n, Refusal::Granted);
    if r.granted() {
        Measured {
            refusal: Refusal::Granted,
            value: ring_measure::extent(ps, n),
        }
    } else {
        unmeasured(r)
    }
}

// Question 21 of two outlines, of the first before the second.
pub(crate) fn ask_both(ps: &[f64], n: usize, qs: &[f64], m: usize) -> Refusal
    ensures { result ≡ Outlines.ask_ring ps.now n (Outlines.ask_ring qs.now m Granted) }
{
    entry::ask_ring(ps, n, entry::ask_ring(qs, m, Refusal::Granted))
}

// 0 where the rings meet, else the least gap over the vertices of each against the edges of the other.
pub(crate) fn clear_between(ps: &[f64], n: usize, qs: &[f64], m: usize) -> f64
    ensures { result ≡ Queries.clear_between ps.now n qs.now m }
{
    if ring_cross::rings_meet(qs, m, ps, n) {
        return 0.0;
    }
    math::distance(ring_gap::least_between(ps, n, qs, m))
}

// The clearance of two outlines.
pub fn clearance(ps: &[f64], n: usize, qs: &[f64], m: usize) -> Measured
    ensures { result ≡ Queries.clearance ps.now n qs.now m }
{
    let r = ask_both(ps, n, qs, m);
    if r.granted() {
        Measured {
            refusal: Refusal::Granted,
            value: clear_between(ps, n, qs, m),
        }
    } else {
        unmeasured(r)
    }
}

// No pair: beside a refusal, and where two outlines do not meet.
pub(crate) fn unmet(r: Refusal) -> Met
    ensures { result ≡ Queries.unmet r }
{
    Met {
        refusal: r,
        meets: false,
        outer: 0,
        inner: 0,
        swapped: false,
    }
}

pub(crate) fn met_by(met: Option<EdgePair>, swapped: bool) -> Met
    ensures { result ≡ Queries.met_by met swapped }
{
    match met {
        None => unmet(Refusal::Granted),
        Some(edges) => Met {
            refusal: Refusal::Granted,
            meets: true,
            outer: edges.first,
            inner: edges.second,
            swapped,
        },
    }
}

// Whether two outlines meet, with the pair of edges.
pub fn meeting(ps: &[f64], n: usize, qs: &[f64], m: usize) -> Met
    ensures { result ≡ Queries.meeting ps.now n qs.now m }
{
    let r = ask_both(ps, n, qs, m);
    if r.granted() {
        met_by(pair::ring_pair(ps, n, qs, m), pair::second_outer(n, m))
    } else {
        unmet(r)
    }
}
