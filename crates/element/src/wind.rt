//! Winds: how the air around the balloon moves.
ghost use Rattle.element.specs.WindLaws.{wind_only};
ghost use Rattle.element.specs.Winds.{a_wind, wind_coding, wind_headline};
ghost use Rattle.std.proofs.Common.{rules};

use crate::{Kind, WIDEST};

/// Where the air around the balloon comes from, and how fast it moves.
#[derive(Clone, Copy, PartialEq, Eq, Debug)]
pub struct Wind {
    /// Tenths of a second from release.
    pub time: u32,
    /// Where it comes from, in hundredths of a degree, 0 to 35,999: 0 is north, and a quarter of a turn is east.
    pub direction: u16,
    /// Tenths of a metre a second, 0 to 2,000.
    pub speed: u16,
}

impl Wind {
    /// The largest direction, in hundredths of a degree; the smallest is 0.
    pub const MAX_DIRECTION: u16 = 35_999;

    /// The highest speed, in tenths of a metre a second; the lowest is 0.
    pub const MAX_SPEED: u16 = 2_000;
}

/// What a console shows of a wind: all but its time.
#[derive(Clone, Copy, PartialEq, Eq, Debug)]
pub struct WindHeadline {
    /// Hundredths of a degree.
    pub direction: u16,
    /// Tenths of a metre a second.
    pub speed: u16,
}

/// Eight bytes: the fields in their order.
impl Kind for Wind {
    const W: usize = 8;

    type Headline = WindHeadline;

    ghost W = { 8 };

    ghost coding = { wind_coding };

    ghost headline = { wind_headline };

    ghost example = { a_wind };

    ghost wide = { Prim.search rules };

    ghost narrow = { Prim.search rules };

    ghost inhabited = { Prim.search rules };

    ghost exact = { Prim.search rules };

    ghost returned = { Prim.search rules };

    ghost only = { wind_only };

    ghost ordered = { Prim.search rules };

    ghost inside = { Prim.search rules };

    fn fault(&self) -> Option<usize> {
        // Any time is in range: it is read for its type's bound alone.
        let _time = self.time;
        if self.direction > Self::MAX_DIRECTION {
            Some(4)
        } else if self.speed > Self::MAX_SPEED {
            Some(6)
        } else {
            None
        }
    }

    fn lay_out(&self, area: &mut [u8; WIDEST]) {
        let [t0, t1, t2, t3] = self.time.to_be_bytes();
        let [d0, d1] = self.direction.to_be_bytes();
        let [s0, s1] = self.speed.to_be_bytes();
        let bytes = [t0, t1, t2, t3, d0, d1, s0, s1];
        area[..bytes.len()].copy_from_slice(&bytes);
    }

    fn value(bytes: &[u8]) -> Option<Wind> {
        let &[t0, t1, t2, t3, d0, d1, s0, s1] = bytes else {
            return None;
        };
        Some(Wind {
            time: u32::from_be_bytes([t0, t1, t2, t3]),
            direction: u16::from_be_bytes([d0, d1]),
            speed: u16::from_be_bytes([s0, s1]),
        })
    }

    fn headline(&self) -> WindHeadline {
        WindHeadline {
            direction: self.direction,
            speed: self.speed,
        }
    }
}
