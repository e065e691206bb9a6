//! Calls of a link and what they answer, as plain values that tests list, draw and compare.
use crate::kinds::ByNumber;
use air::Air;
use element::order::Order;
use frame::Side;
use link::{Hearing, Link};
use protocol::Placement;
use refusal::Refusal;
use std::test::Fail;

/// A call at one end. An element is known by a number.
#[derive(Clone, Copy, PartialEq, Eq, Debug)]
pub(crate) enum Call {
    Accept(u32),
    /// Accepts a value with a field out of range.
    AcceptWrong,
    Send(usize),
    Bare,
    Lose(usize),
    Deliver(usize),
    Repeat(usize),
    Pass,
}

/// What a call answers.
#[derive(Clone, Copy, PartialEq, Eq, Debug)]
pub(crate) enum Answer {
    Done,
    Heard(Hearing),
    Passed(Option<u32>),
    /// The number of a refusal.
    Refused(u8),
}

/// A frame was heard whose acknowledgement released so many, and this became of its element.
pub(crate) fn heard(released: usize, placement: Placement) -> Answer {
    Answer::Heard(Hearing {
        released,
        placement,
    })
}

/// The answer of a call that only does something.
fn done(answer: Result<(), Refusal>) -> Answer {
    match answer {
        Ok(()) => Answer::Done,
        Err(refusal) => Answer::Refused(refusal.number()),
    }
}

/// The answer of a call by which a frame is heard.
fn hearing(answer: Result<Hearing, Refusal>) -> Answer {
    match answer {
        Ok(hearing) => Answer::Heard(hearing),
        Err(refusal) => Answer::Refused(refusal.number()),
    }
}

/// A call at the mast.
fn at_mast<X: ByNumber, A: Air, B: Air>(link: &mut Link<X, Order, A, B>, call: Call) -> Answer {
    match call {
        Call::Accept(number) => done(link.accept_at_mast(X::of(number))),
        Call::AcceptWrong => done(link.accept_at_mast(X::WRONG)),
        Call::Send(k) => done(link.send_from_mast(k)),
        Call::Bare => done(link.bare_from_mast()),
        Call::Lose(k) => done(link.lose_hut_bound(k)),
        Call::Deliver(k) => hearing(link.deliver_hut_bound(k)),
        Call::Repeat(k) => hearing(link.repeat_hut_bound(k)),
        Call::Pass => Answer::Passed(link.pass_at_mast().map(|order| order.number())),
    }
}

/// A call at the hut.
fn at_hut<X: ByNumber, A: Air, B: Air>(link: &mut Link<X, Order, A, B>, call: Call) -> Answer {
    match call {
        Call::Accept(number) => done(link.accept_at_hut(Order::of(number))),
        Call::AcceptWrong => done(link.accept_at_hut(Order::WRONG)),
        Call::Send(k) => done(link.send_from_hut(k)),
        Call::Bare => done(link.bare_from_hut()),
        Call::Lose(k) => done(link.lose_mast_bound(k)),
        Call::Deliver(k) => hearing(link.deliver_mast_bound(k)),
        Call::Repeat(k) => hearing(link.repeat_mast_bound(k)),
        Call::Pass => Answer::Passed(link.pass_at_hut().map(|element| element.number())),
    }
}

/// What a call at a side answers.
pub(crate) fn called<X: ByNumber, A: Air, B: Air>(
    link: &mut Link<X, Order, A, B>,
    side: Side,
    call: Call,
) -> Answer {
    match side {
        Side::Mast => at_mast(link, call),
        Side::Hut => at_hut(link, call),
    }
}

/// Makes calls one after another, and fails at the first that does not answer as it should.
pub(crate) fn check_calls<X: ByNumber, A: Air, B: Air>(
    link: &mut Link<X, Order, A, B>,
    calls: &[(Side, Call, Answer)],
) -> Result<(), Fail> {
    for (side, call, expected) in calls {
        let answer = called(link, *side, *call);
        if answer != *expected {
            return Err(Fail::new(format_args!(
                "{side:?} {call:?}: {answer:?} is not {expected:?}"
            )));
        }
    }
    Ok(())
}
