//! Tests of drafts at the ends of their limits, and of numbers that start over.
use protocol::{Cycle, Draft, Placement, Terms, least_cycle};
use refusal::Refusal;
use std::test::Fail;

/// The number by which two streams are refused, if they are.
fn refused(terms: Terms, other: Terms) -> Option<u8> {
    Draft::new(terms, other).err().map(Refusal::number)
}

/// The ends of each limit, of either stream; the other has windows of 4, and its frames are never overtaken.
#[test]
fn drafts_at_the_ends_of_their_limits(rt: HostRuntime) {
    let table = [
        (0, 0, 8, Some(1)),
        (1, 0, 2, None),
        (1, 0, 1, Some(3)),
        (32, 0, 64, None),
        (32, 0, 63, Some(3)),
        (33, 0, 66, Some(1)),
        (u32::MAX, u32::MAX, u32::MAX, Some(1)),
        (32, 255, 319, None),
        (32, 255, 318, Some(3)),
        (32, 256, 16_384, Some(2)),
        (1, u32::MAX, 0, Some(2)),
        (32, 255, 16_384, None),
        (32, 255, 16_385, Some(3)),
        (32, 255, u32::MAX, Some(3)),
    ];
    let fair = Terms {
        window: 4,
        bound: 0,
        cycle: 16_384,
    };
    for (window, bound, cycle, expected) in table {
        let terms = Terms {
            window,
            bound,
            cycle,
        };
        assert_eq!(rt; refused(terms, fair), expected);
        assert_eq!(rt; refused(fair, terms), expected);
    }
}

/// The least cycle, by adding up window after window.
fn plain_least(window: u32, bound: u32, other: u32) -> u32 {
    let for_frames = bound.saturating_add(window).saturating_add(window);
    let mut for_acknowledgements: u32 = 1;
    for _ in 0..=other {
        for_acknowledgements = for_acknowledgements.saturating_add(window);
    }
    for_frames.max(for_acknowledgements)
}

/// For every window, and bounds at the ends and between, the least cycles are drafted, and a cycle that is one shorter is refused by 3.
#[test]
fn least_cycles_and_one_less(rt: HostRuntime) {
    let bounds = [
        (0, 0),
        (0, 1),
        (1, 0),
        (3, 2),
        (8, 90),
        (0, 255),
        (255, 0),
        (255, 255),
    ];
    for window in 1..=32 {
        for (bound, other) in bounds {
            let least = plain_least(window, bound, other);
            let terms = Terms {
                window,
                bound,
                cycle: least,
            };
            let shorter = Terms {
                cycle: least.saturating_sub(1),
                ..terms
            };
            let back = Terms {
                window,
                bound: other,
                cycle: plain_least(window, other, bound),
            };
            assert_eq!(rt; least_cycle(window, bound, other), u64::from(least));
            assert_eq!(rt; refused(terms, back), None);
            assert_eq!(rt; refused(shorter, back), Some(3));
            assert_eq!(rt; refused(back, shorter), Some(3));
        }
    }
}

/// The first of so many places at which the number counted on from a first one leaves the same remainder on the cycle as another number.
fn plain_place(length: usize, first: usize, places: usize, number: usize) -> Option<usize> {
    let left = number.checked_rem(length);
    (0..places).find(|k| first.saturating_add(*k).checked_rem(length) == left)
}

/// Tries every first number and every other one up to past twice the length of every short cycle, with every number of held elements and of
/// slots up to past its length.
#[test]
fn numbers_by_a_plain_search(rt: HostRuntime) -> Result<(), Fail> {
    for length in 1..=7u16 {
        let cycle = Cycle::new(length).ok_or("no cycle")?;
        for first in 0..=15u16 {
            for number in 0..=15u16 {
                for n in 0..=9usize {
                    let (m, x, y) = (usize::from(length), usize::from(first), usize::from(number));
                    let released = plain_place(m, x, n.saturating_add(1), y).unwrap_or(0);
                    let placed = plain_place(m, x, n, y).map_or(
                        Placement::Outside,
                        Placement::Slot,
                    );
                    assert_eq!(rt; cycle.released(first, n, number), released);
                    assert_eq!(rt; cycle.place(first, n, number), placed);
                }
            }
        }
    }
    Ok(())
}
