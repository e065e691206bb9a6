//! The text of ozone, of a wind and of a headline of each kind; and of a note, a bare frame and the verdict `off`.
use crate::checks::check_eq;
use crate::kinds::{ozone, wind};
use element::order::{Order, OrderHeadline, Tag};
use element::ozone::OzoneHeadline;
use element::reading::{Reading, ReadingHeadline};
use element::wind::WindHeadline;
use frame::Frame;
use std::alloc::Global;
use std::fmt::Display;
use std::test::Fail;
use telling::Told;
use worked::Verdict;

/// A value is printed as this text.
fn prints<T: Display>(alloc: Global, value: &T, text: &str) -> Result<(), Fail> {
    check_eq(format!(in alloc; "{value}")?.as_str(), text)
}

#[test]
fn prints_a_note_a_bare_frame_and_off(rt: HostRuntime) -> Result<(), Fail> {
    let alloc = rt.alloc();
    prints(alloc, &Told(Order::Note { number: 7 }), "note 7")?;
    let bare = Frame::<Reading>::Bare { ack: 3 };
    prints(alloc, &Told(bare), "acknowledgement 3 alone.")?;
    prints(alloc, &Verdict::Off, "off")
}

#[test]
fn prints_ozone_and_winds(rt: HostRuntime) -> Result<(), Fail> {
    let alloc = rt.alloc();
    let ozone = ozone(4_212, 1_234, -425);
    prints(alloc, &Told(ozone), "421.2 s, 12.34 mPa, -4.25 C")?;
    let wind = wind(4_212, 27_150, 83);
    prints(alloc, &Told(wind), "421.2 s, 271.50 degrees, 8.3 m/s")
}

#[test]
fn prints_headlines(rt: HostRuntime) -> Result<(), Fail> {
    let alloc = rt.alloc();
    let reading = ReadingHeadline {
        height: 15_234,
        temperature: -425,
    };
    prints(alloc, &Told(reading), "1523.4 m, -4.25 C")?;
    let ozone = OzoneHeadline {
        partial_pressure: 1_234,
    };
    prints(alloc, &Told(ozone), "12.34 mPa")?;
    let wind = WindHeadline {
        direction: 27_150,
        speed: 83,
    };
    prints(alloc, &Told(wind), "271.50 degrees, 8.3 m/s")?;
    for (tag, text) in [
        (Tag::Tune, "tune"),
        (Tag::Point, "point"),
        (Tag::Note, "note"),
    ] {
        prints(alloc, &Told(OrderHeadline { tag }), text)?;
    }
    Ok(())
}
