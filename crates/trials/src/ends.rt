//! Tests of ends by themselves, and of frames that are written for a draft.
use crate::checks::{check_eq, number_and_place, numbered};
use crate::kinds::ByNumber;
use air::{Air, Gauge};
use element::Kind;
use element::order::Order;
use element::reading::Reading;
use frame::{Format, Frame, LONGEST, Side, write};
use link::{End, EndRecord, Hearing};
use octets::check_of;
use pool::Pool;
use protocol::{Draft, Placement, Terms};
use refusal::Refusal;
use shelf::{CELL, Shelf};
use std::fmt::Debug;
use std::test::Fail;
use tight::Tight;

/// Readings on a cycle of 11, orders on one of 17.
fn drafted() -> Result<Draft, Refusal> {
    let readings = Terms {
        window: 4,
        bound: 3,
        cycle: 11,
    };
    let orders = Terms {
        window: 4,
        bound: 0,
        cycle: 17,
    };
    Draft::new(readings, orders)
}

/// A frame of so many bytes with one of them set, sealed anew with its right check.
fn with_byte(frame: [u8; LONGEST], n: usize, at: usize, byte: u8) -> [u8; LONGEST] {
    let mut area = frame;
    if let Some(place) = area.get_mut(at) {
        *place = byte;
    }
    if let Some(bytes) = area.get_mut(..n) {
        if let Some((front, check)) = bytes.split_last_chunk_mut::<2>() {
            *check = check_of(front).to_be_bytes();
        }
    }
    area
}

/// A byte that is set in a frame, and the number and the place by which the frame is refused then.
#[derive(Clone, Copy)]
struct Wrong {
    at: usize,
    byte: u8,
    refused: (u8, usize),
}

/// Sets a byte, for which the frame is refused by this number at this place.
fn set(at: usize, byte: u8, number: u8, place: usize) -> Wrong {
    Wrong {
        at,
        byte,
        refused: (number, place),
    }
}

/// An end refuses a frame of so many bytes in which one of them is wrong.
fn refuses<O: Kind, I: Kind>(
    end: &mut End<O, I>,
    frame: [u8; LONGEST],
    n: usize,
    wrong: Wrong,
) -> Result<(), Fail> {
    let area = with_byte(frame, n, wrong.at, wrong.byte);
    let answer = end.hear(area.get(..n).ok_or("too long")?);
    let (number, place) = wrong.refused;
    check_eq(number_and_place(answer), Err((number, Some(place))))
}

/// An end refuses bytes that are too few or too many for a frame, and a frame whose last byte is wrong.
fn refuses_others<O: Kind, I: Kind>(
    end: &mut End<O, I>,
    frame: [u8; LONGEST],
    n: usize,
) -> Result<(), Fail> {
    let mut area = frame;
    let last = n.saturating_sub(1);
    if let Some(byte) = area.get_mut(last) {
        *byte ^= 1;
    }
    let check = (12, Some(n.saturating_sub(2)));
    let length = (10, Some(0));
    check_eq(number_and_place(end.hear(&[])), Err(length))?;
    check_eq(number_and_place(end.hear(&area[..13])), Err(length))?;
    check_eq(number_and_place(end.hear(&[0; 33])), Err(length))?;
    let answer = end.hear(area.get(..n).ok_or("too long")?);
    check_eq(number_and_place(answer), Err(check))
}

/// Whatever an end refuses, it hears the frame itself afterwards, and passes on its element.
fn refuses_then_hears<O: Kind, I: Kind + PartialEq + Debug>(
    end: &mut End<O, I>,
    format: Format,
    element: I,
    wrongs: &[Wrong],
) -> Result<(), Fail> {
    let mut area = [0; LONGEST];
    let frame = Frame::Laden {
        ack: 0,
        number: 0,
        element,
    };
    let n = write(format, &frame, &mut area)?;
    refuses_others(end, area, n)?;
    for wrong in wrongs {
        refuses(end, area, n, *wrong)?;
    }
    check_eq(end.record(), EndRecord { held: 0, placed: 0 })?;
    let hearing = Hearing {
        released: 0,
        placement: Placement::Slot(0),
    };
    let bytes = area.get(..n).ok_or("too long")?;
    check_eq(numbered(end.hear(bytes)), Ok(hearing))?;
    check_eq(end.record(), EndRecord { held: 0, placed: 1 })?;
    check_eq(end.pass(), Some(element))
}

/// Refusals 10 to 15 at the mast, which hears orders, and at the hut, which hears readings.
#[test]
fn ends_refuse_bytes(rt: HostRuntime) -> Result<(), Fail> {
    let draft = drafted()?;
    let mut mast = End::<Reading, Order>::new(rt.alloc(), &draft, Side::Mast)?;
    let mut hut = End::<Order, Reading>::new(rt.alloc(), &draft, Side::Hut)?;
    let at_mast = [
        set(0, 0, 11, 0),
        set(4, 2, 11, 0),
        set(5, 3, 13, 5),
        set(6, 1, 13, 6),
        set(11, 4, 13, 11),
        set(8, 11, 14, 7),
        set(10, 17, 14, 9),
        set(12, 4, 15, 12),
    ];
    let at_hut = [
        set(0, 0, 11, 0),
        set(4, 2, 11, 0),
        set(5, 3, 13, 5),
        set(6, 2, 13, 6),
        set(11, 13, 13, 11),
        set(8, 17, 14, 7),
        set(10, 11, 14, 9),
        set(22, 4, 15, 22),
    ];
    refuses_then_hears(&mut mast, draft.format(Side::Hut), Order::of(7), &at_mast)?;
    refuses_then_hears(&mut hut, draft.format(Side::Mast), Reading::of(7), &at_hut)
}

/// What comes of writing a frame of the mast with a reading for a draft.
fn written(ack: u16, number: u16, element: Reading) -> Result<usize, (u8, Option<usize>)> {
    let format = drafted()
        .map_err(|refusal| (refusal.number(), None))?
        .format(Side::Mast);
    let frame = Frame::Laden {
        ack,
        number,
        element,
    };
    let mut area = [0; LONGEST];
    number_and_place(write(format, &frame, &mut area))
}

/// Writing a frame alone tests the acknowledgement, then the number, each on its stream's cycle (14), and then the element (17).
#[test]
fn frames_written_for_a_draft(rt: HostRuntime) -> Result<(), Fail> {
    let dry = Reading::of(1);
    let wet = Reading {
        humidity: 1_001,
        ..dry
    };
    assert_eq!(rt; written(17, 11, wet), Err((14, Some(7))));
    assert_eq!(rt; written(16, 11, wet), Err((14, Some(9))));
    assert_eq!(rt; written(16, 10, wet), Err((17, None)));
    assert_eq!(rt; written(16, 10, dry), Ok(28));
    let mut area = [0; LONGEST];
    let format = drafted()?.format(Side::Hut);
    let bare = |ack| Frame::<Order>::Bare { ack };
    assert_eq!(rt;
        number_and_place(write(format, &bare(11), &mut area)),
        Err((14, Some(7)))
    );
    assert_eq!(rt;
        number_and_place(write(format, &bare(10), &mut area)),
        Ok(14)
    );
    Ok(())
}

/// Where an air hands over bytes that are no frame, they are refused: taken, they are gone; repeated, they stay. Nothing else changes.
#[test]
fn noise_in_an_air(rt: HostRuntime) -> Result<(), Fail> {
    let draft = drafted()?;
    let mut mast = End::<Reading, Order>::new(rt.alloc(), &draft, Side::Mast)?;
    let mut air = Tight::new(Pool::new(0), 0);
    check_eq(numbered(mast.deliver(0, &mut air)), Err(7))?;
    air.put(b"noise")?;
    check_eq(numbered(mast.repeat(0, &mut air)), Err(10))?;
    check_eq(air.waiting(), 1)?;
    check_eq(numbered(mast.deliver(0, &mut air)), Err(10))?;
    check_eq(air.waiting(), 0)?;
    check_eq(mast.record(), EndRecord { held: 0, placed: 0 })
}

/// Two ends by themselves, with an air of one frame for each direction: a reading goes over, and its acknowledgement comes back.
#[test]
fn ends_over_airs(rt: HostRuntime) -> Result<(), Fail> {
    let draft = drafted()?;
    let mut mast = End::<Reading, Order>::new(rt.alloc(), &draft, Side::Mast)?;
    let mut hut = End::<Order, Reading>::new(rt.alloc(), &draft, Side::Hut)?;
    let mut memory = [0; CELL];
    let mut to_hut = Tight::new(Shelf::new(&mut memory, 9), 3);
    let mut to_mast = Tight::new(Pool::new(9), 0);
    mast.accept(Reading::of(1))?;
    check_eq(numbered(mast.send(1, &mut to_hut)), Err(5))?;
    mast.send(0, &mut to_hut)?;
    check_eq(numbered(mast.send(1, &mut to_hut)), Err(5))?;
    check_eq(numbered(mast.send(0, &mut to_hut)), Err(6))?;
    check_eq(numbered(mast.bare(&mut to_hut)), Err(6))?;
    let placed = hut.repeat(0, &mut to_hut)?;
    check_eq(placed.placement, Placement::Slot(0))?;
    check_eq(hut.pass(), Some(Reading::of(1)))?;
    hut.bare(&mut to_mast)?;
    check_eq(mast.deliver(0, &mut to_mast)?.released, 1)?;
    check_eq(hut.deliver(0, &mut to_hut)?.placement, Placement::Outside)?;
    check_eq((to_hut.waiting(), to_mast.waiting()), (0, 0))?;
    check_eq(mast.record(), EndRecord { held: 0, placed: 0 })?;
    check_eq(hut.record(), EndRecord { held: 0, placed: 0 })
}

/// A full window is told by 4, before a field out of range (17). Where the oldest frame may not be overtaken, a younger one is refused
/// by 8, and a place without a frame by 7.
#[test]
fn ends_refuse_calls(rt: HostRuntime) -> Result<(), Fail> {
    let draft = drafted()?;
    let mut mast = End::<Reading, Order>::new(rt.alloc(), &draft, Side::Mast)?;
    let mut hut = End::<Order, Reading>::new(rt.alloc(), &draft, Side::Hut)?;
    let mut to_hut = Tight::new(Pool::new(9), 0);
    check_eq(numbered(mast.accept(Reading::WRONG)), Err(17))?;
    for number in 0..4 {
        mast.accept(Reading::of(number))?;
    }
    check_eq(numbered(mast.accept(Reading::of(4))), Err(4))?;
    check_eq(numbered(mast.accept(Reading::WRONG)), Err(4))?;
    mast.send(0, &mut to_hut)?;
    mast.send(1, &mut to_hut)?;
    check_eq(numbered(hut.deliver(1, &mut to_hut)), Err(8))?;
    check_eq(numbered(hut.repeat(1, &mut to_hut)), Err(8))?;
    check_eq(numbered(hut.repeat(2, &mut to_hut)), Err(7))?;
    check_eq(to_hut.waiting(), 2)?;
    check_eq(mast.record(), EndRecord { held: 4, placed: 0 })?;
    check_eq(hut.record(), EndRecord { held: 0, placed: 0 })
}
