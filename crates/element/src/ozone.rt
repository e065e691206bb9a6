//! Ozone: what the balloon's ozone cell told the mast.
ghost use Rattle.element.specs.OzoneLaws.{ozone_only};
ghost use Rattle.element.specs.Ozones.{an_ozone, ozone_coding, ozone_headline};
ghost use Rattle.std.proofs.Common.{rules};

use crate::{Kind, WIDEST};

/// What the ozone cell measured once.
#[derive(Clone, Copy, PartialEq, Eq, Debug)]
pub struct Ozone {
    /// Tenths of a second from release.
    pub time: u32,
    /// The partial pressure of ozone, in hundredths of a millipascal, 0 to 5,000.
    pub partial_pressure: u16,
    /// The temperature of the cell, in hundredths of a degree Celsius, −5,000 to 5,000.
    pub cell_temperature: i16,
}

impl Ozone {
    /// The highest partial pressure, in hundredths of a millipascal; the lowest is 0.
    pub const MAX_PARTIAL_PRESSURE: u16 = 5_000;

    /// The lowest temperature of the cell, in hundredths of a degree Celsius.
    pub const MIN_CELL_TEMPERATURE: i16 = -5_000;

    /// The highest temperature of the cell, in hundredths of a degree Celsius.
    pub const MAX_CELL_TEMPERATURE: i16 = 5_000;
}

/// What a console shows of ozone: how much there is.
#[derive(Clone, Copy, PartialEq, Eq, Debug)]
pub struct OzoneHeadline {
    /// Hundredths of a millipascal.
    pub partial_pressure: u16,
}

/// Eight bytes: the fields in their order.
impl Kind for Ozone {
    const W: usize = 8;

    type Headline = OzoneHeadline;

    ghost W = { 8 };

    ghost coding = { ozone_coding };

    ghost headline = { ozone_headline };

    ghost example = { an_ozone };

    ghost wide = { Prim.search rules };

    ghost narrow = { Prim.search rules };

    ghost inhabited = { Prim.search rules };

    ghost exact = { Prim.search rules };

    ghost returned = { Prim.search rules };

    ghost only = { ozone_only };

    ghost ordered = { Prim.search rules };

    ghost inside = { Prim.search rules };

    fn fault(&self) -> Option<usize> {
        let cell_temperatures = Self::MIN_CELL_TEMPERATURE..=Self::MAX_CELL_TEMPERATURE;
        // Any time is in range: it is read for its type's bound alone.
        let _time = self.time;
        if self.partial_pressure > Self::MAX_PARTIAL_PRESSURE {
            Some(4)
        } else if !cell_temperatures.contains(&self.cell_temperature) {
            Some(6)
        } else {
            None
        }
    }

    fn lay_out(&self, area: &mut [u8; WIDEST]) {
        let [t0, t1, t2, t3] = self.time.to_be_bytes();
        let [p0, p1] = self.partial_pressure.to_be_bytes();
        let [c0, c1] = self.cell_temperature.to_be_bytes();
        let bytes = [t0, t1, t2, t3, p0, p1, c0, c1];
        area[..bytes.len()].copy_from_slice(&bytes);
    }

    fn value(bytes: &[u8]) -> Option<Ozone> {
        let &[t0, t1, t2, t3, p0, p1, c0, c1] = bytes else {
            return None;
        };
        Some(Ozone {
            time: u32::from_be_bytes([t0, t1, t2, t3]),
            partial_pressure: u16::from_be_bytes([p0, p1]),
            cell_temperature: i16::from_be_bytes([c0, c1]),
        })
    }

    fn headline(&self) -> OzoneHeadline {
        OzoneHeadline {
            partial_pressure: self.partial_pressure,
        }
    }
}
