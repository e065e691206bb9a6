//! The check against a plain sum, frames with one byte wrong, frames at the ends of their lengths, and frames with ozone and winds.
use crate::checks::{check_eq, number_and_place};
use crate::kinds::{ByNumber, ozone, wind};
use element::Kind;
use element::order::Order;
use frame::{Cycles, Format, Frame, LONGEST, Side, hear, write};
use octets::check_of;
use std::test::Fail;

/// The frames of the hut, with a cycle of 8 for what it acknowledges and one of 5 for its own numbers.
const HUT_SENDS: Format = Format {
    sender: Side::Hut,
    cycles: Cycles { ack: 8, number: 5 },
};

/// The check by a plain sum of words, folded once at the end.
fn plain_check(bytes: &[u8]) -> u64 {
    let weights = [256u64, 1];
    let sum = bytes
        .iter()
        .zip(weights.into_iter().cycle())
        .fold(0u64, |sum, (byte, weight)| {
            sum.saturating_add(weight.saturating_mul(u64::from(*byte)))
        });
    65_535 - (sum.saturating_sub(1) % 65_535 + 1)
}

/// Every front of a string of bytes that is not all zero, of odd and even lengths.
#[test]
fn checks_as_a_plain_sum(rt: HostRuntime) {
    let mut bytes = [0; 97];
    let mut next: u32 = 1;
    for byte in bytes.iter_mut() {
        next = next.wrapping_mul(1_103_515_245).wrapping_add(12_345);
        *byte = (next >> 16 & 0xff) as u8;
    }
    for n in 1..97usize {
        assert_eq!(rt;
            u64::from(check_of(&bytes[0..n])),
            plain_check(&bytes[0..n])
        );
    }
    assert_eq!(rt; check_of(&[0xff, 0xff, 0xff, 0xff]), 0);
    assert_eq!(rt; check_of(&[]), 0xffff);
}

/// What is heard of a frame of the hut with note 7, after one byte was set and the check mended.
fn heard_with_byte(at: usize, byte: u8) -> Result<(), (u8, Option<usize>)> {
    let format = HUT_SENDS;
    let frame = Frame::Laden {
        ack: 1,
        number: 0,
        element: Order::Note { number: 7 },
    };
    let mut area = [0; LONGEST];
    let _ = write(format, &frame, &mut area);
    if at < 17 {
        area[at] = byte;
    }
    let check = check_of(&area[..17]).to_be_bytes();
    area[17..19].copy_from_slice(&check);
    number_and_place(hear::<Order>(format, &area[..19])).map(|_| ())
}

#[test]
fn frames_with_one_byte_set(rt: HostRuntime) {
    let table = [
        (0, 0x4E, Err((11, Some(0)))),
        (4, 2, Err((11, Some(0)))),
        (5, 0, Err((13, Some(5)))),
        (5, 1, Err((13, Some(11)))),
        (5, 3, Err((13, Some(5)))),
        (6, 1, Err((13, Some(6)))),
        (8, 7, Ok(())),
        (8, 8, Err((14, Some(7)))),
        (10, 4, Ok(())),
        (10, 5, Err((14, Some(9)))),
        (11, 4, Err((13, Some(11)))),
        (12, 0, Err((15, Some(12)))),
        (12, 1, Err((15, Some(13)))),
        (12, 2, Ok(())),
        (13, 0xff, Ok(())),
    ];
    for (at, byte, expected) in table {
        assert_eq!(rt; heard_with_byte(at, byte), expected);
    }
}

/// What is heard of so many bytes that begin as a bare frame of the hut does, end with a right check, and are 0 between.
fn heard_of_length(n: usize) -> Result<(), (u8, Option<usize>)> {
    let mut bytes = [0; 40];
    let n = n.clamp(14, 40);
    bytes[0..7].copy_from_slice(&[0x4D, 0x48, 0x4C, 0, 1, 1, 2]);
    let check = check_of(&bytes[..n - 2]).to_be_bytes();
    bytes[n - 2..n].copy_from_slice(&check);
    number_and_place(hear::<Order>(HUT_SENDS, &bytes[..n])).map(|_| ())
}

#[test]
fn frames_at_the_ends_of_their_lengths(rt: HostRuntime) -> Result<(), Fail> {
    assert_eq!(rt; heard_of_length(14), Ok(()));
    assert_eq!(rt; heard_of_length(15), Err((13, Some(11))));
    assert_eq!(rt; heard_of_length(32), Err((13, Some(11))));
    assert_eq!(rt; heard_of_length(33), Err((10, Some(0))));
    let mut area = [0; LONGEST];
    let n = write(HUT_SENDS, &Frame::<Order>::Bare { ack: 7 }, &mut area)?;
    assert_eq!(rt; n, 14);
    let short = hear::<Order>(HUT_SENDS, &area[0..13]);
    assert_eq!(rt; short.err().ok_or("heard")?.number(), 10);
    area[13] ^= 1;
    let wrong = hear::<Order>(HUT_SENDS, &area[0..14]).err().ok_or("heard")?;
    assert_eq!(rt; (wrong.number(), wrong.place()), (12, Some(12)));
    Ok(())
}

/// The frames of the mast, with the same two cycles, each in the other place.
const MAST_SENDS: Format = Format {
    sender: Side::Mast,
    cycles: Cycles { ack: 5, number: 8 },
};

/// A frame of the mast with an element, under the number 0 and with the acknowledgement 1.
fn laden<K: Kind>(element: K) -> Frame<K> {
    Frame::Laden {
        ack: 1,
        number: 0,
        element,
    }
}

/// The bytes of such a frame, with these four behind the time of its element, which is 0, and with a right check.
fn frame_bytes(fields: [u8; 4]) -> [u8; 22] {
    let mut bytes = [0; 22];
    bytes[..12].copy_from_slice(b"MHL\x00\x01\x02\x01\x00\x01\x00\x00\x08");
    bytes[16..20].copy_from_slice(&fields);
    let check = check_of(&bytes[..20]).to_be_bytes();
    bytes[20..].copy_from_slice(&check);
    bytes
}

/// Each value is written as the frame with these bytes, and heard of it. Where it is no element, the frame is refused by 15 at this place,
/// and writing it by 17.
fn frames_hold<K: ByNumber>(table: &[([u8; 4], K, Option<usize>)]) -> Result<(), Fail> {
    for (fields, value, fault) in table {
        let bytes = frame_bytes(*fields);
        let heard = number_and_place(hear::<K>(MAST_SENDS, &bytes));
        let mut area = [0; LONGEST];
        let written = number_and_place(write(MAST_SENDS, &laden(*value), &mut area));
        if fault.is_some() {
            check_eq(heard, Err((15, *fault)))?;
            check_eq(written, Err((17, None)))?;
        } else {
            check_eq(heard, Ok(laden(*value)))?;
            check_eq(written, Ok(22))?;
            check_eq(area.get(..22), Some(bytes.as_slice()))?;
        }
    }
    Ok(())
}

/// Fields of ozone and of winds at the ends of their ranges and one beyond, and both beyond at once. The same bytes are ozone to an end that
/// expects ozone, and a wind to one that expects a wind.
#[test]
fn frames_with_eight_bytes_of_an_element() -> Result<(), Fail> {
    frames_hold(&[
        ([0x04, 0xD2, 0x07, 0xD0], ozone(0, 1_234, 2_000), None),
        ([0x13, 0x88, 0x13, 0x88], ozone(0, 5_000, 5_000), None),
        ([0x00, 0x00, 0xEC, 0x78], ozone(0, 0, -5_000), None),
        ([0x13, 0x89, 0x13, 0x88], ozone(0, 5_001, 5_000), Some(16)),
        ([0x13, 0x88, 0x13, 0x89], ozone(0, 5_000, 5_001), Some(18)),
        ([0x00, 0x00, 0xEC, 0x77], ozone(0, 0, -5_001), Some(18)),
        ([0x13, 0x89, 0xEC, 0x77], ozone(0, 5_001, -5_001), Some(16)),
    ])?;
    frames_hold(&[
        ([0x04, 0xD2, 0x07, 0xD0], wind(0, 1_234, 2_000), None),
        ([0x8C, 0x9F, 0x00, 0x00], wind(0, 35_999, 0), None),
        ([0x8C, 0xA0, 0x07, 0xD0], wind(0, 36_000, 2_000), Some(16)),
        ([0x8C, 0x9F, 0x07, 0xD1], wind(0, 35_999, 2_001), Some(18)),
        ([0x8C, 0xA0, 0x07, 0xD1], wind(0, 36_000, 2_001), Some(16)),
    ])
}
