//! Readings in plain fields.
ghost use Rattle.std.specs.Prelude.{◌≡◌};
ghost use Rattle.cerduma.specs.Readings.{packed, reading_form};

use crate::plain::{Plain, PlainFrame};
use element::reading::Reading;

/// The fields of a reading, in the units of `Reading`.
#[repr(C)]
#[derive(Clone, Copy)]
pub struct ReadingFields {
    pub time: u32,
    pub height: i32,
    pub temperature: i16,
    pub humidity: u16,
    pub pressure: u16,
}

/// A frame that carries a reading, or none.
#[repr(C)]
#[derive(Clone, Copy)]
pub struct ReadingFrame {
    pub laden: bool,
    pub ack: u16,
    pub number: u16,
    pub reading: ReadingFields,
}

impl Plain for Reading {
    type Fields = ReadingFields;

    type Frame = ReadingFrame;

    ghost form = { reading_form };

    fn none() -> ReadingFields {
        ReadingFields {
            time: 0,
            height: 0,
            temperature: 0,
            humidity: 0,
            pressure: 0,
        }
    }

    fn fields(self) -> ReadingFields {
        ReadingFields {
            time: self.time,
            height: self.height,
            temperature: self.temperature,
            humidity: self.humidity,
            pressure: self.pressure,
        }
    }

    fn element(fields: ReadingFields) -> Reading {
        Reading {
            time: fields.time,
            height: fields.height,
            temperature: fields.temperature,
            humidity: fields.humidity,
            pressure: fields.pressure,
        }
    }

    fn packed(plain: PlainFrame<ReadingFields>) -> ReadingFrame
        ensures { result ≡ packed plain }
    {
        ReadingFrame {
            laden: plain.laden,
            ack: plain.ack,
            number: plain.number,
            reading: plain.element,
        }
    }

    fn unpacked(frame: &ReadingFrame) -> PlainFrame<ReadingFields> {
        PlainFrame {
            laden: frame.laden,
            ack: frame.ack,
            number: frame.number,
            element: frame.reading,
        }
    }
}
