// Areas, in square metres and in hectares.
#![tactic(auto)]

ghost use Rattle.std.specs.Prelude.{◌≡◌};
ghost use Rattle.areas.specs.Areas;

use error::Refusal;

// An area in square metres, never negative.
#[derive(Clone, Copy)]
pub struct Area {
    pub value: f64,
}

// An area, or the refusal of its number.
#[derive(Clone, Copy)]
pub struct NewArea {
    pub refusal: Refusal,
    pub area: Area,
}

impl Area {
    // No square metres.
    pub const ZERO: Area = Area { value: 0.0 };

    // The area of this many square metres: 2 where it is not finite, 14 below 0.
    #[tactic(auto, using(error::proofs::Laws::granted_is), unfolding(crate::specs::Areas::open_areas))]
    pub fn from_square_metres(value: f64) -> NewArea
        ensures { result ≡ Areas.from_square_metres value }
    {
        let sign = base::choose(value < 0.0, Refusal::Negative(value), Refusal::Granted);
        let refusal = base::choose(math::finite(value), sign, Refusal::NotFinite(0));
        NewArea {
            refusal,
            area: Area {
                value: base::choose(refusal.granted(), value, 0.0),
            },
        }
    }

    #[tactic(auto, unfolding(crate::specs::Areas::from_hectares))]
    pub fn from_hectares(value: f64) -> NewArea
        ensures { result ≡ Areas.from_hectares value }
    {
        Area::from_square_metres(value * 10000.0)
    }

    #[tactic(auto, unfolding(crate::specs::Areas::hectares))]
    pub fn hectares(self) -> f64
        ensures { result ≡ Areas.hectares self }
    {
        self.value / 10000.0
    }
}
