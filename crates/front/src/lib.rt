// The front of an offset: 128 edges, linked into rings, which move at unit speed until they come to the distance.
#![tactic(auto)]

use error::Refusal;
use plane::PlanarPoint;

// The line of an edge: unit direction u, left normal n, n · x = c.
#[derive(Clone, Copy)]
pub struct Line {
    pub u0: f64,
    pub u1: f64,
    pub n0: f64,
    pub n1: f64,
    pub c: f64,
}

// An edge of the front, linked into its ring, with its start vertex as of the offset `since`.
#[derive(Clone, Copy)]
pub struct Edge {
    pub line: Line,
    pub previous: usize,
    pub next: usize,
    pub alive: bool,
    pub start: PlanarPoint,
    pub since: f64,
}

impl Edge {
    pub const UNUSED: Edge = Edge {
        line: Line {
            u0: 1.0,
            u1: 0.0,
            n0: 0.0,
            n1: 1.0,
            c: 0.0,
        },
        previous: 0,
        next: 0,
        alive: false,
        start: PlanarPoint::ORIGIN,
        since: 0.0,
    };

    // Lines closer to parallel than this, by the sine of the angle, are parallel.
    pub const PARALLEL: f64 = 1e-12;

    // Neighbours that face opposite ways closer than this, by one plus the cosine, enclose nothing.
    pub const OPPOSITE: f64 = 1e-12;

    // Slack for a split point at the very end of the edge that it hits.
    pub const ON_EDGE: f64 = 1e-9;

    // Relative offset within which two events count as simultaneous.
    pub const TIE: f64 = 1e-12;
}

// The start vertex of an edge: where it is, and its velocity.
#[derive(Clone, Copy)]
pub struct Moving {
    pub at: PlanarPoint,
    pub velocity: PlanarPoint,
}

// An edge's length and its rate of change.
#[derive(Clone, Copy)]
pub struct Length {
    pub value: f64,
    pub rate: f64,
}

// What a tidying step removes, and at which slot: nothing; a ring of fewer than three edges; the second of two neighbours that face the
// same way; both of two that face opposite ways; an edge of no length that does not grow.
#[derive(Clone, Copy)]
pub enum Tidy {
    Settled,
    SmallRing(usize),
    Straight(usize),
    Spike(usize),
    Empty(usize),
}

// The edge that collapses, and after which step; the vertex that hits an edge, and after which step.
#[derive(Clone, Copy)]
pub struct SoonestCollapse {
    pub edge: usize,
    pub step: f64,
}

#[derive(Clone, Copy)]
pub struct SoonestSplit {
    pub vertex: usize,
    pub edge: usize,
    pub step: f64,
}

// The search for the next event: the soonest collapse and the soonest split so far. `stalled`: a vertex that it needed has no velocity.
#[derive(Clone, Copy)]
pub struct EventSearch {
    pub stalled: bool,
    pub collapse: Option<SoonestCollapse>,
    pub split: Option<SoonestSplit>,
}

// The next event, and how much further it lies. `Stalled`: a vertex has no velocity; `Never`: nothing shrinks and nothing is hit.
#[derive(Clone, Copy)]
pub enum Event {
    Stalled,
    Never,
    Collapse(usize, f64),
    Split(usize, usize, f64),
}

// A walk round a ring of the front: where it is, how many edges it has passed, and whether it has come round.
#[derive(Clone, Copy)]
pub struct Round {
    pub at: usize,
    pub count: usize,
    pub closed: bool,
}

// A walk from one edge of the front that looks for another: it ends where it comes round or finds it.
#[derive(Clone, Copy)]
pub struct Reach {
    pub at: usize,
    pub found: bool,
    pub closed: bool,
}

// The front after a step. `stalled`: a vertex that the step needed has no velocity, and nothing was changed; `changed`: whether tidying
// took something out.
#[derive(Clone, Copy)]
pub struct Front {
    pub edges: [Edge; 128],
    pub stalled: bool,
    pub changed: bool,
}

// The front while the rings load: the slots taken and the rings begun so far.
#[derive(Clone, Copy)]
pub struct Loaded {
    pub edges: [Edge; 128],
    pub used: usize,
    pub rings: usize,
    pub refusal: Refusal,
}

// The front between two events: how far it has travelled, what it has completed, and whether it has come to the distance.
#[derive(Clone, Copy)]
pub struct Sweep {
    pub edges: [Edge; 128],
    pub travelled: f64,
    pub collapses: usize,
    pub divides: usize,
    pub joins: usize,
    pub ended: bool,
    pub refusal: Refusal,
}

// A ring of the finished front while it is walked: its vertices, and the slots passed in this ring and the earlier ones.
#[derive(Clone, Copy)]
pub struct Walk {
    pub at: usize,
    pub seen: [bool; 128],
    pub points: [f64; 256],
    pub count: usize,
    pub closed: bool,
    pub lost: bool,
}
