//! One reading as a frame in bytes: written, heard, come back to its sender, cut short, and damaged.
use crate::damage::tell_damage;
use crate::not_unless;
use element::Kind;
use element::reading::Reading;
use frame::{Frame, LONGEST, hear, write};
use std::io;
use telling::{Decimal, HUT_BOUND, Heard, MAST_BOUND, READING, Told};

/// The acknowledgement that the mast's frame carries.
const ACK: u16 = 3;

/// The number under which the reading is sent.
const NUMBER: u16 = 5;

/// Prints bytes in rows of sixteen.
fn show_bytes(rt: &impl Print, bytes: &[u8]) -> io::Result<()> {
    for row in bytes.chunks(16) {
        print!(rt; "   ")?;
        for byte in row {
            print!(rt; " {byte:02X}")?;
        }
        println!(rt)?;
    }
    Ok(())
}

/// Makes a reading, and tries to make the same with a little more humidity than there can be.
fn tell_making(rt: &impl Print) -> anyhow::Result<Reading> {
    let reading = READING.make()?;
    println!(rt; "The mast makes a reading: {}.", Told(reading))?;
    let humidity = Reading::MAX_HUMIDITY + 1;
    let percent = Decimal::Tenths(i64::from(humidity));
    match (Reading {
        humidity,
        ..reading
    })
    .make()
    {
        Ok(_) => println!(rt; "With {percent} % it is made too.")?,
        Err(refusal) => println!(rt; "With {percent} % it is not made: {refusal}.")?,
    }
    Ok(reading)
}

/// What becomes of a frame that arrives as it was sent, that comes back to its sender, and that is cut short.
fn tell_arrivals(rt: &impl Print, frame: Frame<Reading>, bytes: &[u8]) -> io::Result<()> {
    println!(rt; "{}", Heard::by("The hut", HUT_BOUND, bytes))?;
    let same = hear::<Reading>(HUT_BOUND, bytes) == Ok(frame);
    println!(rt; "That is {}what was sent.", not_unless(same))?;
    let own = Heard::by("The mast, to which it comes back,", MAST_BOUND, bytes);
    println!(rt; "{own}")?;
    let cut = Heard::by(
        "The hut, to which the last byte is lost,",
        HUT_BOUND,
        &bytes[..bytes.len().saturating_sub(1)],
    );
    println!(rt; "{cut}")
}

/// A reading is written into a frame; what the ends make of it, whole and damaged.
pub(crate) fn tell_sample(rt: &impl Print) -> anyhow::Result<()> {
    let frame = Frame::Laden {
        ack: ACK,
        number: NUMBER,
        element: tell_making(rt)?,
    };
    let mut area = [0; LONGEST];
    let n = write(HUT_BOUND, &frame, &mut area)?;
    let bytes = &mut area[..n];
    println!(rt;
        "It goes out as reading number {NUMBER} with acknowledgement {ACK}, in {n} bytes:"
    )?;
    show_bytes(rt, bytes)?;
    tell_arrivals(rt, frame, bytes)?;
    tell_damage(rt, bytes)?;
    Ok(())
}
