//! The worked cases of frames and elements.
use crate::refusals::told;
use element::Kind;
use element::order::Order;
use element::ozone::Ozone;
use element::reading::Reading;
use element::wind::Wind;
use frame::{Cycles, Format, Frame, LONGEST, Side, hear, write};
use octets::check_of;
use refusal::Refusal;
use worked::{BLANK, holds_only};

/// The frames of one side, with cycles of 8.
fn frames_of(sender: Side) -> Format {
    Format {
        sender,
        cycles: Cycles { ack: 8, number: 8 },
    }
}

/// Whether a frame of one side is written as just these bytes, and these bytes are heard as that frame.
fn written_as<K: Kind + PartialEq>(sender: Side, frame: Frame<K>, bytes: &[u8]) -> bool {
    let format = frames_of(sender);
    let mut area = [BLANK; LONGEST];
    let written = write(format, &frame, &mut area);
    let heard = hear::<K>(format, bytes);
    written == Ok(bytes.len()) && holds_only(&area, bytes) && heard == Ok(frame)
}

/// I: the hut's bare frame with acknowledgement 1.
pub(crate) fn bare_frame() -> bool {
    let frame = Frame::<Order>::Bare { ack: 1 };
    written_as(
        Side::Hut,
        frame,
        b"MHL\x00\x01\x01\x02\x00\x01\x00\x00\x00\x62\xB6",
    )
}

/// J: the hut's frame with note 7, acknowledgement 1 and number 0.
pub(crate) fn note_frame() -> bool {
    let element = Order::Note { number: 7 };
    let frame = Frame::Laden {
        ack: 1,
        number: 0,
        element,
    };
    written_as(
        Side::Hut,
        frame,
        b"MHL\x00\x01\x02\x02\x00\x01\x00\x00\x05\x03\x00\x00\x00\x07\x58\xB0",
    )
}

/// A reading of so many tenths of a percent of humidity, and 0 of all else.
fn humid(humidity: u16) -> Reading {
    Reading {
        time: 0,
        height: 0,
        temperature: 0,
        humidity,
        pressure: 0,
    }
}

/// A frame of the mast whose reading tells a humidity of 1,001, sealed with its right check.
fn too_humid() -> Result<[u8; 28], Refusal> {
    let mut area = [BLANK; LONGEST];
    let frame = Frame::Laden {
        ack: 1,
        number: 0,
        element: humid(1_000),
    };
    write(frames_of(Side::Mast), &frame, &mut area)?;
    [area[22], area[23]] = 1_001u16.to_be_bytes();
    [area[26], area[27]] = check_of(&area[0..26]).to_be_bytes();
    let mut bytes = [0; 28];
    bytes.copy_from_slice(&area[0..28]);
    Ok(bytes)
}

/// K: humidity 1,000 is made; 1,001 is refused by 17, and in a frame by 15 at place 22.
pub(crate) fn humidity() -> bool {
    let Ok(bytes) = too_humid() else {
        return false;
    };
    let heard = hear::<Reading>(frames_of(Side::Mast), &bytes);
    humid(1_000).make() == Ok(humid(1_000))
        && humid(1_001).make().map_err(told) == Err((17, None))
        && heard.map_err(told) == Err((15, Some(22)))
}

/// The worked example of RFC 1071: the words sum to ddf2, and the check is its complement.
pub(crate) fn rfc_example() -> bool {
    check_of(&[0x00, 0x01, 0xf2, 0x03, 0xf4, 0xf5, 0xf6, 0xf7]) == !0xddf2
}

/// A frame of the mast with acknowledgement 3 and number 5.
fn fifth<K: Kind>(element: K) -> Frame<K> {
    Frame::Laden {
        ack: 3,
        number: 5,
        element,
    }
}

/// What the cell measured 421.2 seconds from release: 12.34 mPa of ozone, at so many hundredths of a degree.
fn ozone_at(cell_temperature: i16) -> Ozone {
    Ozone {
        time: 4_212,
        partial_pressure: 1_234,
        cell_temperature,
    }
}

/// The mast's frame with this ozone, the cell at −4.25 degrees.
pub(crate) fn ozone_frame() -> bool {
    written_as(
        Side::Mast,
        fifth(ozone_at(-425)),
        b"MHL\x00\x01\x02\x01\x00\x03\x00\x05\x08\x00\x00\x10\x74\x04\xD2\xFE\x57\x49\x0F",
    )
}

/// Ozone with a cell at −5,000 is made; at −5,001 it is refused by 17, and in a frame by 15 at place 18.
pub(crate) fn coldest_cell() -> bool {
    let bytes = b"MHL\x00\x01\x02\x01\x00\x03\x00\x05\x08\x00\x00\x10\x74\x04\xD2\xEC\x77\x5A\xEF";
    let heard = hear::<Ozone>(frames_of(Side::Mast), bytes);
    ozone_at(-5_000).make() == Ok(ozone_at(-5_000))
        && ozone_at(-5_001).make().map_err(told) == Err((17, None))
        && heard.map_err(told) == Err((15, Some(18)))
}

/// The mast's frame with a wind of 421.2 seconds from release: 271.50 degrees, and 8.3 metres a second.
pub(crate) fn wind_frame() -> bool {
    let wind = Wind {
        time: 4_212,
        direction: 27_150,
        speed: 83,
    };
    written_as(
        Side::Mast,
        fifth(wind),
        b"MHL\x00\x01\x02\x01\x00\x03\x00\x05\x08\x00\x00\x10\x74\x6A\x0E\x00\x53\xE1\xD7",
    )
}
