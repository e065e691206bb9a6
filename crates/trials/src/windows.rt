//! Tests of senders and receivers by themselves, and of what a draft says of either side.
use crate::checks::{check_eq, numbered};
use crate::kinds::ByNumber;
use element::order::Order;
use element::reading::Reading;
use frame::{Cycles, Format, Side};
use protocol::{Draft, Placement, Terms};
use refusal::Refusal;
use std::test::Fail;
use window::{Receiver, Sender};

/// The terms of the readings of these tests.
const READINGS: Terms = Terms {
    window: 3,
    bound: 1,
    cycle: 7,
};

/// The terms of their orders.
const ORDERS: Terms = Terms {
    window: 2,
    bound: 0,
    cycle: 5,
};

/// Both as a draft.
fn drafted() -> Result<Draft, Refusal> {
    Draft::new(READINGS, ORDERS)
}

/// The frames of a side, by the cycle of the stream that it acknowledges and that of its own.
fn format(sender: Side, ack: u16, number: u16) -> Format {
    Format {
        sender,
        cycles: Cycles { ack, number },
    }
}

#[test]
fn drafts_by_side() -> Result<(), Fail> {
    let draft = drafted()?;
    check_eq(draft.sent_by(Side::Mast), READINGS)?;
    check_eq(draft.sent_by(Side::Hut), ORDERS)?;
    check_eq(draft.cycle(Side::Mast).length(), 7)?;
    check_eq(draft.cycle(Side::Hut).length(), 5)?;
    check_eq(draft.format(Side::Mast), format(Side::Mast, 5, 7))?;
    check_eq(draft.format(Side::Hut), format(Side::Hut, 7, 5))
}

/// Both halves of either stream start at number 0, with its window and its cycle and nothing in them.
#[test]
fn new_windows(rt: HostRuntime) -> Result<(), Fail> {
    let draft = drafted()?;
    for (side, window, cycle) in [(Side::Mast, 3, 7), (Side::Hut, 2, 5)] {
        let sender = Sender::<Order>::new(rt.alloc(), &draft, side)?;
        check_eq((sender.window(), sender.cycle().length()), (window, cycle))?;
        check_eq((sender.held(), sender.next()), (0, 0))?;
        check_eq(sender.get(0), None)?;
        let receiver = Receiver::<Order>::new(rt.alloc(), &draft, side)?;
        check_eq(
            (receiver.window(), receiver.cycle().length()),
            (window, cycle),
        )?;
        check_eq((receiver.placed(), receiver.next_free()), (0, 0))?;
        check_eq((receiver.behind(0), receiver.behind(3)), (0, 3))?;
    }
    Ok(())
}

/// A sender accepts three readings from a number on, and is full then: 4 is told before 17.
fn fills(sender: &mut Sender<Reading>, first: u32) -> Result<(), Fail> {
    check_eq(numbered(sender.accept(Reading::WRONG)), Err(17))?;
    for number in first..first.saturating_add(3) {
        sender.accept(Reading::of(number))?;
    }
    check_eq(numbered(sender.accept(Reading::of(0))), Err(4))?;
    check_eq(numbered(sender.accept(Reading::WRONG)), Err(4))?;
    check_eq(sender.held(), 3)
}

/// Each acknowledgement releases so many.
fn releases(sender: &mut Sender<Reading>, table: &[(u16, usize)]) -> Result<(), Fail> {
    for (ack, expected) in table {
        check_eq(sender.acknowledge(*ack), *expected)?;
    }
    Ok(())
}

/// Acknowledgements of nothing, beyond what is held, of some, late, and of all; then with numbers that start over.
#[test]
fn senders_hold_and_release(rt: HostRuntime) -> Result<(), Fail> {
    let mut sender = Sender::new(rt.alloc(), &drafted()?, Side::Mast)?;
    fills(&mut sender, 0)?;
    check_eq(sender.get(2), Some((2, Reading::of(2))))?;
    check_eq((sender.get(3), sender.next()), (None, 3))?;
    releases(
        &mut sender,
        &[(0, 0), (4, 0), (6, 0), (2, 2), (0, 0), (1, 0)],
    )?;
    check_eq(sender.get(0), Some((2, Reading::of(2))))?;
    check_eq((sender.get(1), sender.next()), (None, 3))?;
    releases(&mut sender, &[(3, 1), (2, 0), (3, 0)])?;
    fills(&mut sender, 3)?;
    releases(&mut sender, &[(6, 3)])?;
    fills(&mut sender, 6)?;
    check_eq(sender.get(0), Some((6, Reading::of(6))))?;
    check_eq(sender.get(1), Some((0, Reading::of(7))))?;
    check_eq((sender.get(usize::MAX), sender.next()), (None, 2))?;
    releases(&mut sender, &[(3, 0), (5, 0), (1, 2), (6, 0), (2, 1)])?;
    check_eq((sender.held(), sender.next()), (0, 2))
}

/// A receiver takes orders under these numbers, each with that number as its note, and places each in this slot or outside.
fn places(receiver: &mut Receiver<Order>, table: &[(u16, Option<usize>)]) -> Result<(), Fail> {
    for (number, slot) in table {
        let expected = slot.map_or(Placement::Outside, Placement::Slot);
        check_eq(
            receiver.place(*number, Order::of(u32::from(*number))),
            expected,
        )?;
    }
    Ok(())
}

/// A receiver passes on the orders with these numbers, in sequence, and then none.
fn passes(receiver: &mut Receiver<Order>, numbers: &[u32]) -> Result<(), Fail> {
    for number in numbers {
        check_eq(receiver.pass(), Some(Order::of(*number)))?;
    }
    check_eq(receiver.pass(), None)
}

/// Each slot, both ends of the window, a slot filled twice, and the first slot filled last; then with numbers that start over.
#[test]
fn receivers_place_and_pass(rt: HostRuntime) -> Result<(), Fail> {
    let mut receiver = Receiver::new(rt.alloc(), &drafted()?, Side::Mast)?;
    places(
        &mut receiver,
        &[(2, Some(2)), (1, Some(1)), (3, None), (6, None)],
    )?;
    check_eq((receiver.placed(), receiver.next_free()), (2, 0))?;
    check_eq((receiver.behind(3), receiver.behind(0)), (3, 7))?;
    passes(&mut receiver, &[])?;
    check_eq(receiver.place(0, Order::of(9)), Placement::Slot(0))?;
    places(&mut receiver, &[(0, Some(0)), (2, Some(2))])?;
    check_eq((receiver.placed(), receiver.next_free()), (3, 3))?;
    passes(&mut receiver, &[0, 1, 2])?;
    check_eq((receiver.placed(), receiver.next_free()), (0, 3))?;
    check_eq((receiver.behind(3), receiver.behind(2)), (0, 6))?;
    places(
        &mut receiver,
        &[
            (2, None),
            (6, None),
            (3, Some(0)),
            (4, Some(1)),
            (5, Some(2)),
        ],
    )?;
    passes(&mut receiver, &[3, 4, 5])?;
    places(
        &mut receiver,
        &[(5, None), (2, None), (1, Some(2)), (6, Some(0))],
    )?;
    check_eq((receiver.placed(), receiver.next_free()), (2, 0))?;
    passes(&mut receiver, &[6])?;
    places(&mut receiver, &[(0, Some(0))])?;
    check_eq((receiver.next_free(), receiver.window()), (2, 3))?;
    passes(&mut receiver, &[0, 1])
}

/// The widest window, with a cycle of twice as many numbers and all slots filled: the sender may be a whole cycle ahead.
#[test]
fn the_widest_receiver(rt: HostRuntime) -> Result<(), Fail> {
    let widest = Terms {
        window: 32,
        bound: 0,
        cycle: 64,
    };
    let mut receiver = Receiver::new(rt.alloc(), &Draft::new(widest, widest)?, Side::Hut)?;
    for number in 0..32u16 {
        check_eq(receiver.next_free(), number)?;
        places(&mut receiver, &[(number, Some(usize::from(number)))])?;
    }
    check_eq((receiver.placed(), receiver.next_free()), (32, 32))?;
    check_eq(
        (receiver.behind(32), receiver.behind(63), receiver.behind(0)),
        (32, 63, 64),
    )?;
    places(&mut receiver, &[(32, None), (63, None)])?;
    check_eq(receiver.pass(), Some(Order::of(0)))?;
    check_eq((receiver.placed(), receiver.next_free()), (31, 32))?;
    places(&mut receiver, &[(0, None), (32, Some(31))])?;
    check_eq((receiver.placed(), receiver.next_free()), (32, 33))
}
