//! The worked case of airs.
use crate::Flown;
use crate::refusals::told;
use air::{Air, Gauge, Lent};
use octets::LONGEST;
use pool::Pool;
use shelf::{CELL, Shelf};
use tight::Tight;
use worked::{BLANK, holds_only};

/// Whether frame k is taken, as this one byte and no other.
fn takes<A: Air>(air: &mut A, k: usize, byte: u8) -> bool {
    let mut area = [BLANK; LONGEST];
    air.take(k, &mut area) == Ok(1) && holds_only(&area, &[byte])
}

/// Whether frame k is not taken, by refusal 8, which leaves the area, what waits and the oldest count as they were.
fn is_held_up<A: Air>(air: &mut A, k: usize) -> bool {
    let mut area = [BLANK; LONGEST];
    let waiting = air.waiting();
    let oldest = air.count(0).ok();
    let refused = air.take(k, &mut area).map_err(told) == Err((8, None));
    refused && holds_only(&area, &[]) && air.waiting() == waiting && air.count(0).ok() == oldest
}

/// L, on an empty air with bound 1: of three waiting frames, 1 is taken; 1 again is refused by 8; 0 is taken.
fn overtaken_once<A: Air>(air: &mut A) -> bool {
    let put = air.put(b"a").is_ok() && air.put(b"b").is_ok() && air.put(b"c").is_ok();
    put && takes(air, 1, b'b')
        && is_held_up(air, 1)
        && takes(air, 0, b'a')
        && air.waiting() == 1
        && air.count(0) == Ok(0)
}

/// The airs on which case L is flown.
pub(crate) const AIRS: [&'static str; 4] = [
    "a pool",
    "a shelf",
    "a tight air over a pool",
    "a tight air over a shelf",
];

/// Case L on each of these airs. That of the tight ones has the bound 1 from the one given.
pub(crate) fn overtaking() -> Flown {
    let mut memory = [BLANK; 3 * CELL];
    let mut shelf = Shelf::new(&mut memory, 1);
    let on_shelf = overtaken_once(&mut shelf);
    let mut memory = [BLANK; 3 * CELL];
    let mut below = Shelf::new(&mut memory, 9);
    let on_tight_shelf = overtaken_once(&mut Tight::new(Lent(&mut below), 1));
    [
        overtaken_once(&mut Pool::new(1)),
        on_shelf,
        overtaken_once(&mut Tight::new(Pool::new(9), 1)),
        on_tight_shelf,
    ]
}
