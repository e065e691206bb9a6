//! How a flight is told to people: numbers, elements of each kind and their headlines, and what a listener makes of bytes, in plain text,
//! and the cycles of the flight that is told.
//!
//! It must know nothing of airs, drafts and links: it is given values and bytes, and puts them into words.
#![tactic(auto)]

ghost use Rattle.std.specs.Prelude.{◌≡◌};
ghost use Rattle.element.specs.Readings.{reading_coding};
ghost use Rattle.frame.specs.Reads.{hear_from};
ghost use Rattle.telling.specs.Telling.{decimal_text, frame_text, heard_text, sign_text};

use element::reading::Reading;
use frame::{Cycles, Format, Frame, Side, hear};
use refusal::Refusal;
use std::fmt;

mod elements;
mod headlines;

/// Hut-bound frames: the mast numbers them on a cycle of 11, and their acknowledgements are on the other stream's cycle of 17.
pub const HUT_BOUND: Format = Format {
    sender: Side::Mast,
    cycles: Cycles {
        ack: 17,
        number: 11,
    },
};

/// Mast-bound frames, which the hut sends.
pub const MAST_BOUND: Format = Format {
    sender: Side::Hut,
    cycles: Cycles {
        ack: 11,
        number: 17,
    },
};

/// The reading that the told flights begin with.
pub const READING: Reading = Reading {
    time: 4_212,
    height: 15_234,
    temperature: -425,
    humidity: 783,
    pressure: 8_431,
};

/// A number of tenths, or of hundredths, which is told with a decimal point.
#[derive(Clone, Copy, PartialEq, Eq, Debug)]
pub enum Decimal {
    Tenths(i64),
    Hundredths(i64),
}

/// The sign that is told before the size of a number.
fn sign(number: i64) -> &'static str
    ensures { result.now ≡ sign_text number }
{
    if number < 0 { "-" } else { "" }
}

impl fmt::Display for Decimal {
    ghost output = { decimal_text };

    fn fmt<W: fmt::Write>(&self, f: &mut fmt::Formatter<W>) -> fmt::Result {
        match *self {
            Decimal::Tenths(number) => {
                let size = number.unsigned_abs();
                write!(f, "{}{}.{}", sign(number), size / 10, size % 10)
            }
            Decimal::Hundredths(number) => {
                let size = number.unsigned_abs();
                let (whole, tenth, hundredth) = (size / 100, size / 10 % 10, size % 10);
                write!(f, "{}{whole}.{tenth}{hundredth}", sign(number))
            }
        }
    }
}

/// A value as it is told: an element of any kind or its headline with its units, or a frame with what it carries.
#[derive(Clone, Copy, PartialEq, Eq, Debug)]
pub struct Told<T>(pub T);

impl fmt::Display for Told<Frame<Reading>> {
    ghost output = { frame_text };

    fn fmt<W: fmt::Write>(&self, f: &mut fmt::Formatter<W>) -> fmt::Result {
        match self.0 {
            Frame::Bare { ack } => write!(f, "acknowledgement {ack} alone."),
            Frame::Laden {
                ack,
                number,
                element,
            } => {
                let reading = Told(element);
                write!(
                    f,
                    "acknowledgement {ack} and reading number {number}:\n    {reading}"
                )
            }
        }
    }
}

/// What a listener made of some bytes.
#[derive(Clone, Copy, PartialEq, Eq, Debug)]
pub struct Heard<'a> {
    /// Who listened.
    pub who: &'a str,
    /// What was heard, or why nothing was.
    pub answer: Result<Frame<Reading>, Refusal>,
}

impl<'a> Heard<'a> {
    /// What somebody makes of bytes who expects frames of this format.
    pub fn by(who: &'a str, format: Format, bytes: &[u8]) -> Heard<'a>
        ensures who { result.who.now ≡ who.now }
        ensures answer { result.answer ≡ hear_from reading_coding format bytes.now }
    {
        let answer = hear::<Reading>(format, bytes);
        Heard { who, answer }
    }
}

impl fmt::Display for Heard<'_> {
    ghost output = { heard_text };

    fn fmt<W: fmt::Write>(&self, f: &mut fmt::Formatter<W>) -> fmt::Result {
        let who = self.who;
        match self.answer {
            Ok(frame) => write!(f, "{who} hears {}", Told(frame)),
            Err(refusal) => write!(f, "{who} hears nothing: {refusal}."),
        }
    }
}
