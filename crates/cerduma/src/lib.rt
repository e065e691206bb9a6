//! Frames for C and Rust: reading and writing them, as functions of a static library, over the crates `element` and `frame`.
//!
//! `outside/cerduma.h` declares the functions and the structs, and `docs/OUTSIDE.md` says what a caller owes. It keeps nothing between
//! calls, and must know nothing of airs, drafts and links.
//!
//! What hears a frame leaves the caller's struct as it was where it refuses. What writes a frame does so in the front of the caller's
//! area, and answers how many bytes the frame has; where the area has fewer, or the call refuses, the area stays as it was.
#![tactic(auto)]

ghost use Rattle.std.specs.Prelude.{◌≡◌};
ghost use Rattle.cerduma.specs.Answers.{done, format_of, refused_by};
ghost use Rattle.cerduma.specs.Orders.{order_read, order_written};
ghost use Rattle.cerduma.specs.Ozones.{ozone_read, ozone_written};
ghost use Rattle.cerduma.specs.Readings.{reading_read, reading_written};
ghost use Rattle.cerduma.specs.Winds.{wind_read, wind_written};

use element::order::Order;
use element::ozone::Ozone;
use element::reading::Reading;
use element::wind::Wind;
use frame::{Cycles, Format, Side};
use plain::{read, write};
use refusal::Refusal;

mod order;
mod ozone;
mod plain;
mod reading;
mod wind;

pub use order::{OrderFields, OrderFrame};
pub use ozone::{OzoneFields, OzoneFrame};
pub use reading::{ReadingFields, ReadingFrame};
pub use wind::{WindFields, WindFrame};

/// What a call answers: three numbers of one type, so that no bytes lie unused between them.
#[repr(C)]
#[derive(Clone, Copy)]
pub struct Answer {
    /// Why the call refused, by the number of the refusal; 0 where it did not.
    pub refusal: usize,
    /// The byte of the frame that is at fault; 0 too where the refusal tells none.
    pub place: usize,
    /// How many bytes the frame has that was read or written; 0 after a refusal.
    pub length: usize,
}

/// The answer of a call that refuses.
fn refused(refusal: Refusal) -> Answer
    ensures { result ≡ refused_by refusal }
{
    Answer {
        refusal: usize::from(refusal.number()),
        place: refusal.place().unwrap_or(0),
        length: 0,
    }
}

/// The answer of a call that has read or written a frame of so many bytes.
fn done(length: usize) -> Answer
    ensures { result ≡ done length }
{
    Answer {
        refusal: 0,
        place: 0,
        length,
    }
}

/// The format of a stream, by the side that sends it and the two cycles.
fn format(sender: Side, ack_cycle: u16, number_cycle: u16) -> Format
    ensures { result ≡ format_of sender ack_cycle number_cycle }
{
    let cycles = Cycles {
        ack: ack_cycle,
        number: number_cycle,
    };
    Format { sender, cycles }
}

/// Hears a frame of a hut-bound stream of readings, which the mast sends.
#[unsafe(no_mangle)]
pub extern "C" fn cerduma_read_reading(
    ack_cycle: u16,
    number_cycle: u16,
    bytes: &[u8],
    frame: &mut ReadingFrame,
) -> Answer
    ensures { (result, frame.new) ≡ reading_read ack_cycle number_cycle bytes.now frame.old }
{
    read::<Reading>(format(Side::Mast, ack_cycle, number_cycle), bytes, frame)
}

/// Writes such a frame.
#[unsafe(no_mangle)]
pub extern "C" fn cerduma_write_reading(
    ack_cycle: u16,
    number_cycle: u16,
    frame: &ReadingFrame,
    area: &mut [u8],
) -> Answer
    ensures { (result, area.new) ≡ reading_written ack_cycle number_cycle frame.now area.old }
{
    write::<Reading>(format(Side::Mast, ack_cycle, number_cycle), frame, area)
}

/// Hears a frame of a mast-bound stream of orders, which the hut sends.
#[unsafe(no_mangle)]
pub extern "C" fn cerduma_read_order(
    ack_cycle: u16,
    number_cycle: u16,
    bytes: &[u8],
    frame: &mut OrderFrame,
) -> Answer
    ensures { (result, frame.new) ≡ order_read ack_cycle number_cycle bytes.now frame.old }
{
    read::<Order>(format(Side::Hut, ack_cycle, number_cycle), bytes, frame)
}

/// Writes such a frame.
#[unsafe(no_mangle)]
pub extern "C" fn cerduma_write_order(
    ack_cycle: u16,
    number_cycle: u16,
    frame: &OrderFrame,
    area: &mut [u8],
) -> Answer
    ensures { (result, area.new) ≡ order_written ack_cycle number_cycle frame.now area.old }
{
    write::<Order>(format(Side::Hut, ack_cycle, number_cycle), frame, area)
}

/// Hears a frame of a hut-bound stream of ozone, which the mast sends.
#[unsafe(no_mangle)]
pub extern "C" fn cerduma_read_ozone(
    ack_cycle: u16,
    number_cycle: u16,
    bytes: &[u8],
    frame: &mut OzoneFrame,
) -> Answer
    ensures { (result, frame.new) ≡ ozone_read ack_cycle number_cycle bytes.now frame.old }
{
    read::<Ozone>(format(Side::Mast, ack_cycle, number_cycle), bytes, frame)
}

/// Writes such a frame.
#[unsafe(no_mangle)]
pub extern "C" fn cerduma_write_ozone(
    ack_cycle: u16,
    number_cycle: u16,
    frame: &OzoneFrame,
    area: &mut [u8],
) -> Answer
    ensures { (result, area.new) ≡ ozone_written ack_cycle number_cycle frame.now area.old }
{
    write::<Ozone>(format(Side::Mast, ack_cycle, number_cycle), frame, area)
}

/// Hears a frame of a hut-bound stream of winds, which the mast sends.
#[unsafe(no_mangle)]
pub extern "C" fn cerduma_read_wind(
    ack_cycle: u16,
    number_cycle: u16,
    bytes: &[u8],
    frame: &mut WindFrame,
) -> Answer
    ensures { (result, frame.new) ≡ wind_read ack_cycle number_cycle bytes.now frame.old }
{
    read::<Wind>(format(Side::Mast, ack_cycle, number_cycle), bytes, frame)
}

/// Writes such a frame.
#[unsafe(no_mangle)]
pub extern "C" fn cerduma_write_wind(
    ack_cycle: u16,
    number_cycle: u16,
    frame: &WindFrame,
    area: &mut [u8],
) -> Answer
    ensures { (result, area.new) ≡ wind_written ack_cycle number_cycle frame.now area.old }
{
    write::<Wind>(format(Side::Mast, ack_cycle, number_cycle), frame, area)
}
