//! Elements of every kind that are known by numbers, so that tests can list, draw and compare them.
use crate::checks::check_eq;
use element::Kind;
use element::order::Order;
use element::ozone::Ozone;
use element::reading::Reading;
use element::wind::Wind;
use std::fmt::Debug;
use std::test::Fail;

/// A reading at a height and a temperature, in range or not.
pub(crate) fn reading(time: u32, height: i32, temperature: i16) -> Reading {
    Reading {
        time,
        height,
        temperature,
        humidity: 500,
        pressure: 2_000,
    }
}

/// What the ozone cell measured, in range or not.
pub(crate) fn ozone(time: u32, partial_pressure: u16, cell_temperature: i16) -> Ozone {
    Ozone {
        time,
        partial_pressure,
        cell_temperature,
    }
}

/// A wind, in range or not.
pub(crate) fn wind(time: u32, direction: u16, speed: u16) -> Wind {
    Wind {
        time,
        direction,
        speed,
    }
}

/// What an element has that is not the one with any number. No test and no flight accepts an element with this number.
pub(crate) const NO_NUMBER: u32 = u32::MAX;

/// A kind that has an element for each number.
pub(crate) trait ByNumber: Kind + PartialEq + Debug {
    /// A value with a field out of range.
    const WRONG: Self;

    /// The element with a number.
    fn of(number: u32) -> Self;

    /// What stands where the number of an element does.
    fn stamp(&self) -> u32;

    /// The number of an element that is, in every field, the one with that number; of any other, one that stands for none.
    fn number(&self) -> u32 {
        let number = self.stamp();
        if *self == Self::of(number) {
            number
        } else {
            NO_NUMBER
        }
    }
}

impl ByNumber for Reading {
    const WRONG: Reading = Reading {
        time: 0,
        height: 500_001,
        temperature: 0,
        humidity: 0,
        pressure: 0,
    };

    fn of(number: u32) -> Reading {
        reading(number, 12_000, -4_000)
    }

    fn stamp(&self) -> u32 {
        self.time
    }
}

impl ByNumber for Ozone {
    const WRONG: Ozone = Ozone {
        time: 0,
        partial_pressure: 0,
        cell_temperature: -5_001,
    };

    fn of(number: u32) -> Ozone {
        ozone(number, 1_234, -425)
    }

    fn stamp(&self) -> u32 {
        self.time
    }
}

impl ByNumber for Wind {
    const WRONG: Wind = Wind {
        time: 0,
        direction: 36_000,
        speed: 0,
    };

    fn of(number: u32) -> Wind {
        wind(number, 27_150, 83)
    }

    fn stamp(&self) -> u32 {
        self.time
    }
}

impl ByNumber for Order {
    const WRONG: Order = Order::Point {
        bearing: 36_000,
        elevation: 0,
    };

    fn of(number: u32) -> Order {
        Order::Note { number }
    }

    fn stamp(&self) -> u32 {
        match *self {
            Order::Note { number } => number,
            Order::Tune { .. } | Order::Point { .. } => NO_NUMBER,
        }
    }
}

/// An element has the number that it was made with, and one with any field changed has none.
#[test]
fn numbers_of_whole_elements() -> Result<(), Fail> {
    check_eq(Reading::of(3).number(), 3)?;
    check_eq(Ozone::of(3).number(), 3)?;
    check_eq(Wind::of(3).number(), 3)?;
    check_eq(Order::of(3).number(), 3)?;
    let others = [
        reading(3, 12_001, -4_000).number(),
        reading(3, 12_000, -4_001).number(),
        ozone(3, 1_235, -425).number(),
        ozone(3, 1_234, -424).number(),
        wind(3, 27_151, 83).number(),
        wind(3, 27_150, 84).number(),
        Order::Tune { khz: 403_500 }.number(),
    ];
    check_eq(others, [NO_NUMBER; 7])
}
