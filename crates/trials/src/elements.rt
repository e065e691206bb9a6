//! The ends of the ranges of every field of every kind, and elements as bytes.
use crate::checks::{check_eq, numbered};
use crate::kinds::{ByNumber, ozone, wind};
use element::order::Order;
use element::ozone::Ozone;
use element::reading::Reading;
use element::wind::Wind;
use element::{Kind, WIDEST};
use std::test::Fail;
use telling::READING;

/// A reading with 0 in every field, which is in range.
const CALM: Reading = Reading {
    time: 0,
    height: 0,
    temperature: 0,
    humidity: 0,
    pressure: 0,
};

/// One at a height.
fn at_height(height: i32) -> Reading {
    Reading { height, ..CALM }
}

/// One at a temperature.
fn at_temperature(temperature: i16) -> Reading {
    Reading {
        temperature,
        ..CALM
    }
}

/// One with a humidity and a pressure.
fn wet(humidity: u16, pressure: u16) -> Reading {
    Reading {
        humidity,
        pressure,
        ..CALM
    }
}

/// Each value has this fault: it is made where it has none, and otherwise refused by 17.
fn has_faults<K: ByNumber>(table: &[(K, Option<usize>)]) -> Result<(), Fail> {
    for (value, fault) in table {
        check_eq(value.fault(), *fault)?;
        let made = match fault {
            Some(_) => Err(17),
            None => Ok(*value),
        };
        check_eq(numbered(value.make()), made)?;
    }
    Ok(())
}

/// The lowest and the highest value of each field are in range, and one beyond is not.
#[test]
fn readings_at_the_ends_of_their_ranges() -> Result<(), Fail> {
    has_faults(&[
        (
            Reading {
                time: u32::MAX,
                ..CALM
            },
            None,
        ),
        (at_height(-5_000), None),
        (at_height(-5_001), Some(4)),
        (at_height(500_000), None),
        (at_height(500_001), Some(4)),
        (at_temperature(-12_000), None),
        (at_temperature(-12_001), Some(8)),
        (at_temperature(6_000), None),
        (at_temperature(6_001), Some(8)),
        (wet(1_000, 11_000), None),
        (wet(1_001, 11_000), Some(10)),
        (wet(1_000, 11_001), Some(12)),
        (wet(1_001, 11_001), Some(10)),
    ])
}

#[test]
fn orders_at_the_ends_of_their_ranges() -> Result<(), Fail> {
    has_faults(&[
        (Order::Tune { khz: 400_149 }, Some(1)),
        (Order::Tune { khz: 400_150 }, None),
        (Order::Tune { khz: 406_000 }, None),
        (Order::Tune { khz: 406_001 }, Some(1)),
        (
            Order::Point {
                bearing: 35_999,
                elevation: 9_000,
            },
            None,
        ),
        (
            Order::Point {
                bearing: 36_000,
                elevation: 9_001,
            },
            Some(1),
        ),
        (
            Order::Point {
                bearing: 35_999,
                elevation: 9_001,
            },
            Some(3),
        ),
        (Order::Note { number: u32::MAX }, None),
    ])?;
    check_eq(Order::read(&[0, 0, 0, 0, 0]), Err(0))?;
    check_eq(Order::read(&[4, 0, 0, 0, 0]), Err(0))?;
    check_eq(Order::read(&[3, 0, 0, 0]), Err(0))
}

/// The ends of its ranges that each kind tells. The contracts say which values are elements, and nothing of these constants.
#[test]
fn ends_of_ranges() -> Result<(), Fail> {
    check_eq(
        (Reading::MIN_HEIGHT, Reading::MAX_HEIGHT),
        (-5_000, 500_000),
    )?;
    check_eq(
        (Reading::MIN_TEMPERATURE, Reading::MAX_TEMPERATURE),
        (-12_000, 6_000),
    )?;
    check_eq(
        (Reading::MAX_HUMIDITY, Reading::MAX_PRESSURE),
        (1_000, 11_000),
    )?;
    check_eq(
        (Ozone::MIN_CELL_TEMPERATURE, Ozone::MAX_CELL_TEMPERATURE),
        (-5_000, 5_000),
    )?;
    check_eq(Ozone::MAX_PARTIAL_PRESSURE, 5_000)?;
    check_eq((Wind::MAX_DIRECTION, Wind::MAX_SPEED), (35_999, 2_000))?;
    check_eq((Order::TUNE, Order::POINT, Order::NOTE), (1, 2, 3))?;
    check_eq((Order::MIN_KHZ, Order::MAX_KHZ), (400_150, 406_000))?;
    check_eq((Order::MAX_BEARING, Order::MAX_ELEVATION), (35_999, 9_000))
}

/// Each end of each range, one beyond it, and one within it.
#[test]
fn ozone_and_wind_at_the_ends_of_their_ranges() -> Result<(), Fail> {
    has_faults(&[
        (ozone(u32::MAX, 0, -5_000), None),
        (ozone(0, 5_000, 5_000), None),
        (ozone(0, 4_999, 4_999), None),
        (ozone(0, 1, -4_999), None),
        (ozone(0, 5_001, 5_000), Some(4)),
        (ozone(0, u16::MAX, 0), Some(4)),
        (ozone(0, 5_000, 5_001), Some(6)),
        (ozone(0, 0, -5_001), Some(6)),
        (ozone(0, 0, i16::MIN), Some(6)),
        (ozone(0, 5_001, -5_001), Some(4)),
    ])?;
    has_faults(&[
        (wind(u32::MAX, 0, 0), None),
        (wind(0, 35_999, 2_000), None),
        (wind(0, 35_998, 1_999), None),
        (wind(0, 1, 1), None),
        (wind(0, 36_000, 2_000), Some(4)),
        (wind(0, u16::MAX, 0), Some(4)),
        (wind(0, 35_999, 2_001), Some(6)),
        (wind(0, 0, u16::MAX), Some(6)),
        (wind(0, 36_000, 2_001), Some(4)),
    ])
}

/// An element is written as these bytes, into the front of the area, and read back from them. Bytes of another length are refused at
/// offset 0.
fn is_written_as<K: ByNumber>(element: K, bytes: &[u8]) -> Result<(), Fail> {
    let blank = [0xAA; WIDEST];
    let mut area = blank;
    let width = element.write(&mut area)?;
    check_eq(area.get(..width), Some(bytes))?;
    check_eq(area.get(width..), blank.get(width..))?;
    check_eq(K::read(bytes), Ok(element))?;
    for length in [0, width.saturating_sub(1), width.saturating_add(1)] {
        let other = area.get(..length).ok_or("too long")?;
        check_eq(K::read(other), Err(0))?;
    }
    Ok(())
}

/// An element of each kind, a signed field at its lowest value and just below zero, and the last time there is.
#[test]
fn elements_as_bytes() -> Result<(), Fail> {
    is_written_as(
        READING,
        b"\x00\x00\x10\x74\x00\x00\x3B\x82\xFE\x57\x03\x0F\x20\xEF",
    )?;
    is_written_as(Order::Note { number: 7 }, b"\x03\x00\x00\x00\x07")?;
    is_written_as(
        ozone(4_212, 1_234, -425),
        b"\x00\x00\x10\x74\x04\xD2\xFE\x57",
    )?;
    is_written_as(ozone(0, 5_000, -5_000), b"\x00\x00\x00\x00\x13\x88\xEC\x78")?;
    is_written_as(ozone(u32::MAX, 0, -1), b"\xFF\xFF\xFF\xFF\x00\x00\xFF\xFF")?;
    is_written_as(wind(4_212, 27_150, 83), b"\x00\x00\x10\x74\x6A\x0E\x00\x53")?;
    is_written_as(
        wind(u32::MAX, 35_999, 2_000),
        b"\xFF\xFF\xFF\xFF\x8C\x9F\x07\xD0",
    )
}
