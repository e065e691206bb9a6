//! How the headline of an element of each kind is told.
ghost use Rattle.telling.specs.Headlines.{order_headline_text, ozone_headline_text, reading_headline_text, wind_headline_text};

use crate::{Decimal, Told};
use element::order::{OrderHeadline, Tag};
use element::ozone::OzoneHeadline;
use element::reading::ReadingHeadline;
use element::wind::WindHeadline;
use std::fmt;

impl fmt::Display for Told<ReadingHeadline> {
    ghost output = { reading_headline_text };

    fn fmt<W: fmt::Write>(&self, f: &mut fmt::Formatter<W>) -> fmt::Result {
        let height = Decimal::Tenths(i64::from(self.0.height));
        let temperature = Decimal::Hundredths(i64::from(self.0.temperature));
        write!(f, "{height} m, {temperature} C")
    }
}

impl fmt::Display for Told<OzoneHeadline> {
    ghost output = { ozone_headline_text };

    fn fmt<W: fmt::Write>(&self, f: &mut fmt::Formatter<W>) -> fmt::Result {
        let partial_pressure = Decimal::Hundredths(i64::from(self.0.partial_pressure));
        write!(f, "{partial_pressure} mPa")
    }
}

impl fmt::Display for Told<WindHeadline> {
    ghost output = { wind_headline_text };

    fn fmt<W: fmt::Write>(&self, f: &mut fmt::Formatter<W>) -> fmt::Result {
        let direction = Decimal::Hundredths(i64::from(self.0.direction));
        let speed = Decimal::Tenths(i64::from(self.0.speed));
        write!(f, "{direction} degrees, {speed} m/s")
    }
}

impl fmt::Display for Told<OrderHeadline> {
    ghost output = { order_headline_text };

    fn fmt<W: fmt::Write>(&self, f: &mut fmt::Formatter<W>) -> fmt::Result {
        f.write_str(match self.0.tag {
            Tag::Tune => "tune",
            Tag::Point => "point",
            Tag::Note => "note",
        })
    }
}
