//! The worked cases of drafts.
use protocol::{Draft, Terms, least_cycle};
use refusal::Refusal;

/// The terms of a stream.
pub(crate) fn terms(window: u32, bound: u32, cycle: u32) -> Terms {
    Terms {
        window,
        bound,
        cycle,
    }
}

/// Whether both streams are drafted, on exactly these terms.
fn is_drafted(hut_bound: Terms, mast_bound: Terms) -> bool {
    match Draft::new(hut_bound, mast_bound) {
        Ok(draft) => draft.hut_bound() == hut_bound && draft.mast_bound() == mast_bound,
        Err(_) => false,
    }
}

/// Whether they are not, by this refusal.
fn is_refused(hut_bound: Terms, mast_bound: Terms, refusal: Refusal) -> bool {
    Draft::new(hut_bound, mast_bound) == Err(refusal)
}

/// Whether a cycle is outside its limits, which is refused by 3.
fn is_outside(hut_bound: Terms, mast_bound: Terms) -> bool {
    is_refused(hut_bound, mast_bound, Refusal::CycleOutOfLimits)
}

/// A: windows 4, bounds 0: cycles of 8 are drafted; one of 7, of either stream, is refused by 3.
pub(crate) fn cycles_of_8() -> bool {
    let (eight, seven) = (terms(4, 0, 8), terms(4, 0, 7));
    is_drafted(eight, eight) && is_outside(seven, eight) && is_outside(eight, seven)
}

/// B: windows 4, hut-bound bound 3, mast-bound bound 0: the least cycles are 11 and 17; one below either is refused by 3.
pub(crate) fn cycles_of_11_and_17() -> bool {
    let (hut_bound, mast_bound) = (terms(4, 3, 11), terms(4, 0, 17));
    least_cycle(4, 3, 0) == 11
        && least_cycle(4, 0, 3) == 17
        && is_drafted(hut_bound, mast_bound)
        && is_outside(terms(4, 3, 10), mast_bound)
        && is_outside(hut_bound, terms(4, 0, 16))
}

/// C: windows 32, bounds 255: the least cycle is 8,193, and 8,192 is refused by 3; 16,384 is drafted, and 16,385 refused by 3.
pub(crate) fn longest_cycles() -> bool {
    let (least, longest) = (terms(32, 255, 8_193), terms(32, 255, 16_384));
    least_cycle(32, 255, 255) == 8_193
        && is_drafted(least, least)
        && is_outside(terms(32, 255, 8_192), least)
        && is_drafted(longest, longest)
        && is_outside(terms(32, 255, 16_385), longest)
}

/// D: windows 1, bounds 0: the least cycle is 2; 1 is refused by 3.
pub(crate) fn shortest_cycles() -> bool {
    let two = terms(1, 0, 2);
    least_cycle(1, 0, 0) == 2 && is_drafted(two, two) && is_outside(terms(1, 0, 1), two)
}

/// A window of 0 or of 33 is refused by 1, and a bound of 256 by 2; a window before a bound, and a bound before a cycle.
pub(crate) fn other_limits() -> bool {
    let eight = terms(4, 0, 8);
    is_refused(terms(0, 0, 8), eight, Refusal::WindowOutOfLimits)
        && is_refused(eight, terms(33, 0, 8), Refusal::WindowOutOfLimits)
        && is_refused(
            terms(4, 256, 8),
            terms(33, 0, 8),
            Refusal::WindowOutOfLimits,
        )
        && is_refused(terms(4, 256, 8), eight, Refusal::BoundOutOfLimits)
}
