//! A leg of the flight, with a line of progress now and then.
use crate::Flight;
use crate::balloon::Leg;
use crate::journey::Journey;
use element::ozone::Ozone;
use element::reading::Reading;
use std::alloc::{AllocError, Global};
use std::{fmt, io};
use telling::Decimal;

/// The longest leg that there can be, in seconds.
const LONGEST: u32 = 10_000;

/// How many seconds lie between two lines.
const INTERVAL: u32 = 400;

/// What the columns are.
fn tell_columns(rt: &impl Print) -> io::Result<()> {
    println!(rt;
        "{:>6} {:>8} {:>8} {:>7} {:>6} {:>5} {:>8} {:>9} {:>9} {:>12} {:>5} {:>8} {:>9} {:>11}",
        "time s",
        "height m",
        "accepted",
        "queued",
        "sent",
        "lost",
        "repeated",
        "overtaken",
        "held back",
        "started over",
        "late",
        "at hut m",
        "ozone mPa",
        "ozone count"
    )
}

/// A part of the headline that a board shows, or a dash while it shows none.
fn shown<T: fmt::Display + Copy>(alloc: Global, part: Option<T>) -> Result<String, AllocError> {
    match part {
        Some(part) => format!(in alloc; "{part}"),
        None => format!(in alloc; "-"),
    }
}

/// How far the flight has come: the balloon, the first link, and what the boards at the hut show.
fn tell_progress(rt: &(impl Print + AllocGlobal), journey: &Journey) -> anyhow::Result<()> {
    let (readings, orders) = (&journey.first.hut_bound, &journey.first.mast_bound);
    let frames = readings.frames.and(orders.frames);
    let height = readings.board.latest().map(|reading| reading.height / 10);
    let ozone = &journey.ozone.hut_bound.board;
    let pressure = ozone
        .latest()
        .map(|ozone| i64::from(ozone.partial_pressure));
    println!(rt;
        "{:>6} {:>8} {:>8} {:>7} {:>6} {:>5} {:>8} {:>9} {:>9} {:>12} {:>5} {:>8} {:>9} {:>11}",
        journey.balloon.second(),
        journey.balloon.height() / 10,
        readings.accepted.len(),
        readings.queued(),
        frames.sent,
        frames.lost,
        frames.repeated,
        frames.overtaken,
        frames.held_back,
        readings.started_over(),
        readings.late.heard,
        shown(rt.alloc(), height)?,
        shown(rt.alloc(), pressure.map(Decimal::Hundredths))?,
        ozone.count()
    )?;
    Ok(())
}

/// Flies on until the balloon is where the leg ends, over the first link, and over the ozone link while there is one.
pub(crate) fn tell_leg(
    rt: &(impl Print + AllocGlobal),
    link: &mut Flight<Reading>,
    mut ozone_link: Option<&mut Flight<Ozone>>,
    journey: &mut Journey,
    leg: Leg,
) -> anyhow::Result<()> {
    tell_columns(rt)?;
    for _ in 0..LONGEST {
        if journey.balloon.has_flown(leg) {
            break;
        }
        match &mut ozone_link {
            Some(ozone_link) => journey.fly_both(link, ozone_link)?,
            None => journey.fly(link)?,
        }
        if journey.balloon.second() % INTERVAL == 0 {
            tell_progress(rt, journey)?;
        }
    }
    tell_progress(rt, journey)
}

/// Brings both streams of the first link to rest.
pub(crate) fn tell_rest(
    rt: &impl Print,
    link: &mut Flight<Reading>,
    journey: &mut Journey,
) -> anyhow::Result<()> {
    let queued = journey.first.hut_bound.queued();
    journey.first.rest(link)?;
    println!(rt;
        "First the relays hand over everything, until the {queued} queued readings are accepted,"
    )?;
    println!(rt; "no end holds anything, and no frame waits.")?;
    Ok(())
}
