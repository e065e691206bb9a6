//! How an element of each kind is told: its fields in their order, with their units.
ghost use Rattle.std.specs.Prelude.{◌≡◌, pos};
ghost use Rattle.telling.specs.Telling.{order_text, ozone_text, reading_text, wind_text};
ghost use Rattle.telling.specs.declared.Decimal.TheVariants.{Tenths};

use crate::{Decimal, Told};
use element::order::Order;
use element::ozone::Ozone;
use element::reading::Reading;
use element::wind::Wind;
use std::fmt;

/// A time that is given in tenths of a second.
fn seconds(time: u32) -> Decimal
    ensures { result ≡ Tenths (pos time) }
{
    Decimal::Tenths(i64::from(time))
}

impl fmt::Display for Told<Reading> {
    ghost output = { reading_text };

    fn fmt<W: fmt::Write>(&self, f: &mut fmt::Formatter<W>) -> fmt::Result {
        let time = seconds(self.0.time);
        let height = Decimal::Tenths(i64::from(self.0.height));
        let temperature = Decimal::Hundredths(i64::from(self.0.temperature));
        let humidity = Decimal::Tenths(i64::from(self.0.humidity));
        let pressure = Decimal::Tenths(i64::from(self.0.pressure));
        write!(
            f,
            "{time} s, {height} m, {temperature} C, {humidity} %, {pressure} hPa"
        )
    }
}

impl fmt::Display for Told<Order> {
    ghost output = { order_text };

    fn fmt<W: fmt::Write>(&self, f: &mut fmt::Formatter<W>) -> fmt::Result {
        match self.0 {
            Order::Tune { khz } => write!(f, "tune to {khz} kHz"),
            Order::Point { bearing, elevation } => {
                let bearing = Decimal::Hundredths(i64::from(bearing));
                let elevation = Decimal::Hundredths(i64::from(elevation));
                write!(
                    f,
                    "point to bearing {bearing} and elevation {elevation} degrees"
                )
            }
            Order::Note { number } => write!(f, "note {number}"),
        }
    }
}

impl fmt::Display for Told<Ozone> {
    ghost output = { ozone_text };

    fn fmt<W: fmt::Write>(&self, f: &mut fmt::Formatter<W>) -> fmt::Result {
        let time = seconds(self.0.time);
        let partial_pressure = Decimal::Hundredths(i64::from(self.0.partial_pressure));
        let cell_temperature = Decimal::Hundredths(i64::from(self.0.cell_temperature));
        write!(f, "{time} s, {partial_pressure} mPa, {cell_temperature} C")
    }
}

impl fmt::Display for Told<Wind> {
    ghost output = { wind_text };

    fn fmt<W: fmt::Write>(&self, f: &mut fmt::Formatter<W>) -> fmt::Result {
        let time = seconds(self.0.time);
        let direction = Decimal::Hundredths(i64::from(self.0.direction));
        let speed = Decimal::Tenths(i64::from(self.0.speed));
        write!(f, "{time} s, {direction} degrees, {speed} m/s")
    }
}
