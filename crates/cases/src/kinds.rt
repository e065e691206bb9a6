//! The elements with which the worked cases are flown.
use element::Kind;
use element::order::{Order, OrderHeadline, Tag};
use element::ozone::{Ozone, OzoneHeadline};
use element::reading::{Reading, ReadingHeadline};
use element::wind::{Wind, WindHeadline};

/// A kind of element, with two elements that can be told apart.
pub(crate) trait Worked: Kind + PartialEq {
    /// What a place of a list holds before it is lent.
    const NONE: Self;

    /// The element that is accepted first.
    const FIRST: Self;

    /// The element that is accepted next.
    const SECOND: Self;

    /// The headline of the second.
    const HEADLINE: Self::Headline;
}

impl Worked for Reading {
    const NONE: Reading = Reading {
        time: 0,
        height: 0,
        temperature: 0,
        humidity: 0,
        pressure: 0,
    };

    const FIRST: Reading = Reading {
        time: 1,
        height: 10_000,
        temperature: -425,
        humidity: 783,
        pressure: 2_650,
    };

    const SECOND: Reading = Reading {
        time: 2,
        height: 10_050,
        temperature: -430,
        humidity: 782,
        pressure: 2_632,
    };

    const HEADLINE: ReadingHeadline = ReadingHeadline {
        height: 10_050,
        temperature: -430,
    };
}

impl Worked for Ozone {
    const NONE: Ozone = Ozone {
        time: 0,
        partial_pressure: 0,
        cell_temperature: 0,
    };

    const FIRST: Ozone = Ozone {
        time: 1,
        partial_pressure: 1_234,
        cell_temperature: -425,
    };

    const SECOND: Ozone = Ozone {
        time: 2,
        partial_pressure: 1_250,
        cell_temperature: -430,
    };

    const HEADLINE: OzoneHeadline = OzoneHeadline {
        partial_pressure: 1_250,
    };
}

impl Worked for Wind {
    const NONE: Wind = Wind {
        time: 0,
        direction: 0,
        speed: 0,
    };

    const FIRST: Wind = Wind {
        time: 1,
        direction: 27_150,
        speed: 83,
    };

    const SECOND: Wind = Wind {
        time: 2,
        direction: 27_300,
        speed: 91,
    };

    const HEADLINE: WindHeadline = WindHeadline {
        direction: 27_300,
        speed: 91,
    };
}

impl Worked for Order {
    const NONE: Order = Order::Note { number: 0 };

    const FIRST: Order = Order::Note { number: 7 };

    const SECOND: Order = Order::Point {
        bearing: 27_150,
        elevation: 4_500,
    };

    const HEADLINE: OrderHeadline = OrderHeadline { tag: Tag::Point };
}
