//! The picture of the air that the flight brought home: the temperature at each height on the way up, from what the hut has passed on.
use element::reading::Reading;
use std::io;
use telling::Decimal;

/// How many rows there are.
const ROWS: i32 = 16;

/// How far the rows lie apart, in decimetres.
const STEP: i32 = 20_000;

/// The last column; the first is 0.
const LAST: i64 = 64;

/// The temperature at the first column, in hundredths of a degree.
const COLDEST: i64 = -6_000;

/// How wide a column is, in hundredths of a degree.
const COLUMN: i64 = 125;

/// The column of a temperature.
fn column_of(temperature: i16) -> i64 {
    ((i64::from(temperature) - COLDEST) / COLUMN).clamp(0, LAST)
}

/// The mark in its column, which ends a row.
fn tell_mark(rt: &impl Print, column: i64) -> io::Result<()> {
    print!(rt; "  |")?;
    for place in 0..=LAST {
        print!(rt; "{}", if place == column { "*" } else { " " })?;
    }
    println!(rt; "|")
}

/// The row of a height: the first reading there or above.
fn tell_row(rt: &(impl Print + AllocGlobal), readings: &[Reading], height: i32) -> io::Result<()> {
    let Some(reading) = readings.iter().find(|reading| reading.height >= height) else {
        return println!(rt; "{:>5} km  not reached", height / 10_000);
    };
    let metres = format!(in rt.alloc(); "{}", Decimal::Tenths(i64::from(reading.height)))?;
    let degrees = format!(in rt.alloc();
        "{}",
        Decimal::Hundredths(i64::from(reading.temperature))
    )?;
    print!(rt; "{:>5} km {metres:>9} m {degrees:>7} C", height / 10_000)?;
    tell_mark(rt, column_of(reading.temperature))
}

/// The picture, from 30 km down to the ground, and a scale below.
pub(crate) fn tell_profile(
    rt: &(impl Print + AllocGlobal),
    readings: &[Reading],
) -> io::Result<()> {
    println!(rt;
        "The first reading at each height or above, of those that the hut has passed on:"
    )?;
    for row in (0..ROWS).rev() {
        tell_row(rt, readings, row.saturating_mul(STEP))?;
    }
    println!(rt;
        "{:>29}{:>6}{:>16}{:>16}{:>15}{:>17}",
        "degrees Celsius", "-60", "-40", "-20", "0", "+20"
    )
}
