//! Orders in plain fields.
ghost use Rattle.std.specs.Prelude.{◌≡◌};
ghost use Rattle.cerduma.specs.Orders.{order_form, packed};

use crate::plain::{Plain, PlainFrame};
use element::order::Order;

/// The fields of an order. Those that its tag does not name are 0 where it was read, and not looked at where it is written.
#[repr(C)]
#[derive(Clone, Copy)]
pub struct OrderFields {
    /// 1 to tune the receiver, 2 to point the antenna, 3 for a launch note.
    pub tag: u8,
    /// The frequency in kHz, or the number of the note.
    pub value: u32,
    /// Hundredths of a degree.
    pub bearing: u16,
    /// Hundredths of a degree.
    pub elevation: u16,
}

/// A frame that carries an order, or none.
#[repr(C)]
#[derive(Clone, Copy)]
pub struct OrderFrame {
    pub laden: bool,
    pub ack: u16,
    pub number: u16,
    pub order: OrderFields,
}

impl Plain for Order {
    type Fields = OrderFields;

    type Frame = OrderFrame;

    ghost form = { order_form };

    fn none() -> OrderFields {
        OrderFields {
            tag: 0,
            value: 0,
            bearing: 0,
            elevation: 0,
        }
    }

    fn fields(self) -> OrderFields {
        match self {
            Order::Tune { khz } => OrderFields {
                tag: 1,
                value: khz,
                ..Self::none()
            },
            Order::Point { bearing, elevation } => OrderFields {
                tag: 2,
                bearing,
                elevation,
                ..Self::none()
            },
            Order::Note { number } => OrderFields {
                tag: 3,
                value: number,
                ..Self::none()
            },
        }
    }

    /// A tag that is none gives an order that is out of range: a tuning to 0 kHz.
    fn element(fields: OrderFields) -> Order {
        match fields.tag {
            1 => Order::Tune { khz: fields.value },
            2 => Order::Point {
                bearing: fields.bearing,
                elevation: fields.elevation,
            },
            3 => Order::Note {
                number: fields.value,
            },
            _ => Order::Tune { khz: 0 },
        }
    }

    fn packed(plain: PlainFrame<OrderFields>) -> OrderFrame
        ensures { result ≡ packed plain }
    {
        OrderFrame {
            laden: plain.laden,
            ack: plain.ack,
            number: plain.number,
            order: plain.element,
        }
    }

    fn unpacked(frame: &OrderFrame) -> PlainFrame<OrderFields> {
        PlainFrame {
            laden: frame.laden,
            ack: frame.ack,
            number: frame.number,
            element: frame.order,
        }
    }
}
