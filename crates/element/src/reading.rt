//! Readings: what the balloon's instruments told the mast.
ghost use Rattle.element.specs.Readings.{a_reading, reading_coding, reading_headline};
ghost use Rattle.element.specs.ReadingLaws.{reading_only};
ghost use Rattle.std.proofs.Common.{rules};

use crate::{Kind, WIDEST};

/// One reading of the instruments.
#[derive(Clone, Copy, PartialEq, Eq, Debug)]
pub struct Reading {
    /// Tenths of a second from release.
    pub time: u32,
    /// Decimetres, −5,000 to 500,000.
    pub height: i32,
    /// Hundredths of a degree Celsius, −12,000 to 6,000.
    pub temperature: i16,
    /// Tenths of a percent, 0 to 1,000.
    pub humidity: u16,
    /// Tenths of a hectopascal, 0 to 11,000.
    pub pressure: u16,
}

impl Reading {
    /// The lowest height, in decimetres.
    pub const MIN_HEIGHT: i32 = -5_000;

    /// The greatest height, in decimetres.
    pub const MAX_HEIGHT: i32 = 500_000;

    /// The lowest temperature, in hundredths of a degree Celsius.
    pub const MIN_TEMPERATURE: i16 = -12_000;

    /// The highest temperature, in hundredths of a degree Celsius.
    pub const MAX_TEMPERATURE: i16 = 6_000;

    /// The highest humidity, in tenths of a percent; the lowest is 0.
    pub const MAX_HUMIDITY: u16 = 1_000;

    /// The highest pressure, in tenths of a hectopascal; the lowest is 0.
    pub const MAX_PRESSURE: u16 = 11_000;
}

/// What a console shows of a reading: where the balloon is, and how cold it is there.
#[derive(Clone, Copy, PartialEq, Eq, Debug)]
pub struct ReadingHeadline {
    /// Decimetres.
    pub height: i32,
    /// Hundredths of a degree Celsius.
    pub temperature: i16,
}

/// Fourteen bytes: the fields in their order.
impl Kind for Reading {
    const W: usize = 14;

    type Headline = ReadingHeadline;

    ghost W = { 14 };

    ghost coding = { reading_coding };

    ghost headline = { reading_headline };

    ghost example = { a_reading };

    ghost wide = { Prim.search rules };

    ghost narrow = { Prim.search rules };

    ghost inhabited = { Prim.search rules };

    ghost exact = { Prim.search rules };

    ghost returned = { Prim.search rules };

    ghost only = { reading_only };

    ghost ordered = { Prim.search rules };

    ghost inside = { Prim.search rules };

    fn fault(&self) -> Option<usize> {
        // Any time is in range: it is read for its type's bound alone.
        let _time = self.time;
        if !(Self::MIN_HEIGHT..=Self::MAX_HEIGHT).contains(&self.height) {
            Some(4)
        } else if !(Self::MIN_TEMPERATURE..=Self::MAX_TEMPERATURE).contains(&self.temperature) {
            Some(8)
        } else if self.humidity > Self::MAX_HUMIDITY {
            Some(10)
        } else if self.pressure > Self::MAX_PRESSURE {
            Some(12)
        } else {
            None
        }
    }

    fn lay_out(&self, area: &mut [u8; WIDEST]) {
        let [t0, t1, t2, t3] = self.time.to_be_bytes();
        let [h0, h1, h2, h3] = self.height.to_be_bytes();
        let [c0, c1] = self.temperature.to_be_bytes();
        let [u0, u1] = self.humidity.to_be_bytes();
        let [p0, p1] = self.pressure.to_be_bytes();
        let bytes = [t0, t1, t2, t3, h0, h1, h2, h3, c0, c1, u0, u1, p0, p1];
        area[..bytes.len()].copy_from_slice(&bytes);
    }

    fn value(bytes: &[u8]) -> Option<Reading> {
        let &[t0, t1, t2, t3, h0, h1, h2, h3, c0, c1, u0, u1, p0, p1] = bytes else {
            return None;
        };
        Some(Reading {
            time: u32::from_be_bytes([t0, t1, t2, t3]),
            height: i32::from_be_bytes([h0, h1, h2, h3]),
            temperature: i16::from_be_bytes([c0, c1]),
            humidity: u16::from_be_bytes([u0, u1]),
            pressure: u16::from_be_bytes([p0, p1]),
        })
    }

    fn headline(&self) -> ReadingHeadline {
        ReadingHeadline {
            height: self.height,
            temperature: self.temperature,
        }
    }
}
