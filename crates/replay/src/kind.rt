// The kinds of questions.

#[derive(Clone, Copy)]
pub(crate) enum Kind {
    Outline,
    Contains,
    Nearest,
    Measures,
    Clearance,
    Edge,
    Point,
    Area,
    Offset,
    Region,
    Inset,
    Within,
    Turn,
    Meet,
    Fold,
    Pair,
    Again,
}

// Every kind, at the place that is its number in a line.
pub(crate) const KINDS: [Kind; 17] = [
    Kind::Outline,
    Kind::Contains,
    Kind::Nearest,
    Kind::Measures,
    Kind::Clearance,
    Kind::Edge,
    Kind::Point,
    Kind::Area,
    Kind::Offset,
    Kind::Region,
    Kind::Inset,
    Kind::Within,
    Kind::Turn,
    Kind::Meet,
    Kind::Fold,
    Kind::Pair,
    Kind::Again,
];

impl Kind {
    // The kind of this number.
    pub(crate) fn from_number(number: u64) -> Option<Kind> {
        KINDS.get(number as usize).copied()
    }

    pub(crate) fn name(self) -> &'static str {
        match self {
            Kind::Outline => "outline",
            Kind::Contains => "contains",
            Kind::Nearest => "nearest",
            Kind::Measures => "measures",
            Kind::Clearance => "clearance",
            Kind::Edge => "edge",
            Kind::Point => "point",
            Kind::Area => "area",
            Kind::Offset => "offset",
            Kind::Region => "region",
            Kind::Inset => "inset",
            Kind::Within => "within",
            Kind::Turn => "turn",
            Kind::Meet => "meet",
            Kind::Fold => "fold",
            Kind::Pair => "pair",
            Kind::Again => "again",
        }
    }
}
