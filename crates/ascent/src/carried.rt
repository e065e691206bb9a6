//! The kinds of element that the flight's links carry, with those calls of a link that are of one kind. The calls that go by the side
//! alone are in `sides`.
use crate::Flight;
use element::Kind;
use element::order::Order;
use element::ozone::Ozone;
use element::reading::Reading;
use frame::Side;
use refusal::Refusal;
use telling::READING;

/// A kind of element that some link of the flight carries.
pub(crate) trait Carried: Kind + PartialEq {
    /// One of its elements is called so.
    const ONE: &'static str;

    /// The side that its stream comes from.
    const SENDER: Side;

    /// What the places of a list hold before it is lent to settling.
    const PLACEHOLDER: Self;
}

/// A kind of element that links of the type L carry.
pub(crate) trait CarriedBy<L>: Carried {
    /// The sender accepts an element.
    fn accept(link: &mut L, element: Self) -> Result<(), Refusal>;

    /// The receiver passes on an element.
    fn pass(link: &mut L) -> Option<Self>;
}

impl Carried for Reading {
    const ONE: &'static str = "reading";

    const SENDER: Side = Side::Mast;

    const PLACEHOLDER: Reading = READING;
}

impl CarriedBy<Flight<Reading>> for Reading {
    fn accept(link: &mut Flight<Reading>, element: Reading) -> Result<(), Refusal> {
        link.accept_at_mast(element)
    }

    fn pass(link: &mut Flight<Reading>) -> Option<Reading> {
        link.pass_at_hut()
    }
}

impl Carried for Ozone {
    const ONE: &'static str = "ozone measurement";

    const SENDER: Side = Side::Mast;

    const PLACEHOLDER: Ozone = Ozone {
        time: 0,
        partial_pressure: 0,
        cell_temperature: 0,
    };
}

impl CarriedBy<Flight<Ozone>> for Ozone {
    fn accept(link: &mut Flight<Ozone>, element: Ozone) -> Result<(), Refusal> {
        link.accept_at_mast(element)
    }

    fn pass(link: &mut Flight<Ozone>) -> Option<Ozone> {
        link.pass_at_hut()
    }
}

impl Carried for Order {
    const ONE: &'static str = "order";

    const SENDER: Side = Side::Hut;

    const PLACEHOLDER: Order = Order::Note { number: 0 };
}

/// Orders go back on every link.
impl<X: Kind> CarriedBy<Flight<X>> for Order {
    fn accept(link: &mut Flight<X>, element: Order) -> Result<(), Refusal> {
        link.accept_at_hut(element)
    }

    fn pass(link: &mut Flight<X>) -> Option<Order> {
        link.pass_at_mast()
    }
}
