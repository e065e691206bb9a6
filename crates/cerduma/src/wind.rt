//! Winds in plain fields.
ghost use Rattle.std.specs.Prelude.{◌≡◌};
ghost use Rattle.cerduma.specs.Winds.{packed, wind_form};

use crate::plain::{Plain, PlainFrame};
use element::wind::Wind;

/// The fields of a wind, in the units of `Wind`.
#[repr(C)]
#[derive(Clone, Copy)]
pub struct WindFields {
    pub time: u32,
    pub direction: u16,
    pub speed: u16,
}

/// A frame that carries a wind, or none.
#[repr(C)]
#[derive(Clone, Copy)]
pub struct WindFrame {
    pub laden: bool,
    pub ack: u16,
    pub number: u16,
    pub wind: WindFields,
}

impl Plain for Wind {
    type Fields = WindFields;

    type Frame = WindFrame;

    ghost form = { wind_form };

    fn none() -> WindFields {
        WindFields {
            time: 0,
            direction: 0,
            speed: 0,
        }
    }

    fn fields(self) -> WindFields {
        WindFields {
            time: self.time,
            direction: self.direction,
            speed: self.speed,
        }
    }

    fn element(fields: WindFields) -> Wind {
        Wind {
            time: fields.time,
            direction: fields.direction,
            speed: fields.speed,
        }
    }

    fn packed(plain: PlainFrame<WindFields>) -> WindFrame
        ensures { result ≡ packed plain }
    {
        WindFrame {
            laden: plain.laden,
            ack: plain.ack,
            number: plain.number,
            wind: plain.element,
        }
    }

    fn unpacked(frame: &WindFrame) -> PlainFrame<WindFields> {
        PlainFrame {
            laden: frame.laden,
            ack: frame.ack,
            number: frame.number,
            element: frame.wind,
        }
    }
}
