//! Ozone in plain fields.
ghost use Rattle.std.specs.Prelude.{◌≡◌};
ghost use Rattle.cerduma.specs.Ozones.{ozone_form, packed};

use crate::plain::{Plain, PlainFrame};
use element::ozone::Ozone;

/// The fields of ozone, in the units of `Ozone`.
#[repr(C)]
#[derive(Clone, Copy)]
pub struct OzoneFields {
    pub time: u32,
    pub partial_pressure: u16,
    pub cell_temperature: i16,
}

/// A frame that carries ozone, or none.
#[repr(C)]
#[derive(Clone, Copy)]
pub struct OzoneFrame {
    pub laden: bool,
    pub ack: u16,
    pub number: u16,
    pub ozone: OzoneFields,
}

impl Plain for Ozone {
    type Fields = OzoneFields;

    type Frame = OzoneFrame;

    ghost form = { ozone_form };

    fn none() -> OzoneFields {
        OzoneFields {
            time: 0,
            partial_pressure: 0,
            cell_temperature: 0,
        }
    }

    fn fields(self) -> OzoneFields {
        OzoneFields {
            time: self.time,
            partial_pressure: self.partial_pressure,
            cell_temperature: self.cell_temperature,
        }
    }

    fn element(fields: OzoneFields) -> Ozone {
        Ozone {
            time: fields.time,
            partial_pressure: fields.partial_pressure,
            cell_temperature: fields.cell_temperature,
        }
    }

    fn packed(plain: PlainFrame<OzoneFields>) -> OzoneFrame
        ensures { result ≡ packed plain }
    {
        OzoneFrame {
            laden: plain.laden,
            ack: plain.ack,
            number: plain.number,
            ozone: plain.element,
        }
    }

    fn unpacked(frame: &OzoneFrame) -> PlainFrame<OzoneFields> {
        PlainFrame {
            laden: frame.laden,
            ack: frame.ack,
            number: frame.number,
            element: frame.ozone,
        }
    }
}
