//! Frames: what one end of a link sends to the other, as bytes.
//!
//! A frame says what its sender has heard so far, by an acknowledgement, and may carry one element with its number.
//!
//! It must know nothing of airs, drafts and links, nor which kinds of element there are: the sender and the cycles come with a
//! format, and of a kind it goes by the trait alone.
#![tactic(auto)]

ghost use Rattle.std.specs.Prelude.{◌≡◌};
ghost use Rattle.frame.specs.Formats.{other_side, not_below, not_below_cycle};
ghost use Rattle.refusal.specs.Refusals.{unless};

use refusal::Refusal;

mod header;
mod reader;
mod writer;

pub use octets::LONGEST;
pub use reader::{hear, read};
pub use writer::write;

/// The two ends of a link: the mast on its hill and the hut at the launch field.
#[derive(Clone, Copy, PartialEq, Eq, Debug)]
pub enum Side {
    Mast,
    Hut,
}

impl Side {
    /// The side at the other end of the link.
    pub fn other(self) -> Side
        ensures { result ≡ other_side self }
    {
        match self {
            Side::Mast => Side::Hut,
            Side::Hut => Side::Mast,
        }
    }
}

/// The cycles that a frame's two numbers are taken from. The numbers of a cycle are those below it.
#[derive(Clone, Copy, PartialEq, Eq, Debug)]
pub struct Cycles {
    /// The cycle of the stream that is acknowledged.
    pub ack: u16,
    /// The cycle of the stream that the frame belongs to.
    pub number: u16,
}

/// What a frame is held against: the side that sends it, and its cycles.
#[derive(Clone, Copy, PartialEq, Eq, Debug)]
pub struct Format {
    pub sender: Side,
    pub cycles: Cycles,
}

/// A frame: bare, with the acknowledgement alone, or laden, with a number and an element too. The element is a value of its
/// kind, or the part of the bytes heard in which it stands.
#[derive(Clone, Copy, PartialEq, Eq, Debug)]
pub enum Frame<E> {
    Bare { ack: u16 },
    Laden { ack: u16, number: u16, element: E },
}

/// Refuses a number, at its place, that is not below its cycle.
fn below(place: usize, number: u16, cycle: u16) -> Result<(), Refusal>
    ensures { result ≡ unless tt (not_below place number cycle) }
{
    if number < cycle {
        Ok(())
    } else {
        Err(Refusal::NumberPastCycle { place })
    }
}

impl<E> Frame<E> {
    /// Refuses a frame whose acknowledgement, at place 7, or number, at place 9, is not below its cycle.
    fn on_cycle(&self, format: Format) -> Result<(), Refusal>
        ensures { result ≡ unless tt (not_below_cycle format self.now) }
    {
        let cycles = format.cycles;
        match self {
            Frame::Bare { ack } => below(7, *ack, cycles.ack),
            Frame::Laden { ack, number, .. } => {
                below(7, *ack, cycles.ack)?;
                below(9, *number, cycles.number)
            }
        }
    }
}
