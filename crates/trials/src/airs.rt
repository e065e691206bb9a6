//! Tests of airs by examples, and of one air against another.
use crate::checks::{check_eq, next_draw, numbered};
use air::{Air, Gauge, Lent, clear, most_overtaken};
use octets::LONGEST;
use pool::Pool;
use refusal::Refusal;
use shelf::{CELL, Shelf};
use std::test::Fail;
use tight::Tight;

/// An empty air with room for some frames is filled, and then refuses by 6, but a wrong size by 9 first.
fn fills_up<A: Air>(air: &mut A) -> Result<(), Fail> {
    let capacity = air.capacity();
    for i in 0..capacity {
        check_eq(air.waiting(), i)?;
        check_eq(air.put(&[7; LONGEST]), Ok(()))?;
    }
    check_eq(air.waiting(), capacity)?;
    check_eq(numbered(air.put(&[7])), Err(6))?;
    check_eq(numbered(air.put(&[])), Err(9))?;
    check_eq(numbered(air.put(&[7; 33])), Err(9))?;
    check_eq(numbered(air.lose(capacity)), Err(7))?;
    check_eq(numbered(air.count(capacity)), Err(7))?;
    clear(air);
    check_eq(air.waiting(), 0)
}

/// The first three counts, where frames wait.
fn three_counts<A: Air>(air: &A) -> [Option<u8>; 3] {
    [air.count(0).ok(), air.count(1).ok(), air.count(2).ok()]
}

/// Repeating raises the counts of older frames alone, up to the bound 2, and writes the front of the area.
fn repeats<A: Air>(air: &mut A) -> Result<(), Fail> {
    let mut area = [9; LONGEST];
    check_eq(air.repeat(2, &mut area), Ok(5))?;
    check_eq(&area[0..7], b"young\x09\x09".as_slice())?;
    check_eq(three_counts(air), [Some(1), Some(1), Some(0)])?;
    check_eq(air.repeat(1, &mut area), Ok(3))?;
    check_eq(&area[0..7], b"midng\x09\x09".as_slice())?;
    check_eq(three_counts(air), [Some(2), Some(1), Some(0)])?;
    check_eq(most_overtaken(air), 2)
}

/// Where the oldest count is the bound, younger frames are refused by 8, and a place without a frame by 7; nothing changes.
fn refuses<A: Air>(air: &mut A) -> Result<(), Fail> {
    let mut area = [9; LONGEST];
    check_eq(numbered(air.take(2, &mut area)), Err(8))?;
    check_eq(numbered(air.repeat(1, &mut area)), Err(8))?;
    check_eq(numbered(air.take(3, &mut area)), Err(7))?;
    check_eq(numbered(air.repeat(3, &mut area)), Err(7))?;
    check_eq(area, [9; LONGEST])?;
    check_eq(three_counts(air), [Some(2), Some(1), Some(0)])
}

/// Losing the oldest frees those behind it, and raises no count; taking raises those of older frames.
fn empties<A: Air>(air: &mut A) -> Result<(), Fail> {
    let mut area = [9; LONGEST];
    check_eq(air.lose(0), Ok(()))?;
    check_eq(three_counts(air), [Some(1), Some(0), None])?;
    check_eq(air.take(1, &mut area), Ok(5))?;
    check_eq(three_counts(air), [Some(2), None, None])?;
    check_eq(air.take(0, &mut area), Ok(3))?;
    check_eq(&area[0..7], b"midng\x09\x09".as_slice())?;
    check_eq((most_overtaken(air), air.waiting()), (0, 0))
}

/// An empty air with bound 2 and room for three.
fn counts<A: Air>(air: &mut A) -> Result<(), Fail> {
    air.put(b"old")?;
    air.put(b"mid")?;
    air.put(b"young")?;
    repeats(air)?;
    refuses(air)?;
    empties(air)
}

/// All of this, on an empty air with bound 2 and room for three frames or more.
fn behaves<A: Air>(air: &mut A) -> Result<(), Fail> {
    fills_up(air)?;
    counts(air)
}

#[test]
fn every_air_behaves_alike() -> Result<(), Fail> {
    behaves(&mut Pool::new(2))?;
    let mut memory = [1; 3 * CELL + 35];
    let mut shelf = Shelf::new(&mut memory, 2);
    behaves(&mut shelf)?;
    behaves(&mut Tight::new(Pool::new(2), 200))?;
    behaves(&mut Tight::new(Tight::new(Pool::new(200), 2), 3))?;
    behaves(&mut Tight::new(Lent(&mut shelf), 2))
}

/// How many frames fit on a shelf with so many bytes of memory, which are at most 36,072.
fn room(bytes: usize) -> usize {
    let mut memory = [0; 36_072];
    Shelf::new(&mut memory[0..bytes.min(36_072)], 0).capacity()
}

#[test]
fn capacities_and_bounds() -> Result<(), Fail> {
    let table = [
        (0, 0),
        (35, 0),
        (36, 1),
        (71, 1),
        (72, 2),
        (35_999, 999),
        (36_000, 1_000),
        (36_072, 1_000),
    ];
    for (bytes, frames) in table {
        check_eq(room(bytes), frames)?;
    }
    check_eq(Pool::new(255).capacity(), 16)?;
    check_eq(Tight::new(Pool::new(3), 7).bound(), 3)?;
    check_eq(Tight::new(Pool::new(7), 3).bound(), 3)?;
    let mut small = [0; 36];
    check_eq(
        Tight::new(Lent(&mut Shelf::new(&mut small, 1)), 0).capacity(),
        1,
    )
}

/// What waited before an air was held to a bound is lost, and what waits then is there when it is released.
#[test]
fn tight_airs_start_empty() -> Result<(), Fail> {
    let mut pool = Pool::new(9);
    pool.put(b"before")?;
    let mut tight = Tight::new(pool, 1);
    check_eq(tight.waiting(), 0)?;
    tight.put(b"after")?;
    let mut pool = tight.into_inner();
    let mut area = [0; LONGEST];
    check_eq((pool.waiting(), pool.bound()), (1, 9))?;
    check_eq(pool.take(0, &mut area)?, 5)?;
    check_eq(&area[0..5], b"after".as_slice())
}

/// What an air answers to a call of a kind and a place that a drawn number picks, and what the area then holds. A call that answers no
/// length answers 0.
fn called<A: Air>(air: &mut A, draw: u32) -> (Result<usize, Refusal>, [u8; LONGEST]) {
    let mut area = [9; LONGEST];
    let k = (draw >> 20 & 0xf) as usize;
    let frame = draw.to_be_bytes();
    let n = (draw >> 12 & 0x7) as usize;
    let answer = match draw >> 28 {
        0..=6 => air.put(&frame[0..n.min(4)]).map(|()| 0),
        7 | 8 => air.lose(k).map(|()| 0),
        9..=11 => air.repeat(k, &mut area),
        _ => air.take(k, &mut area),
    };
    (answer, area)
}

/// One call on two airs: the same answer, the same area, the same counts.
fn same_call<A: Air, B: Air>(a: &mut A, b: &mut B, draw: u32) -> Result<(), Fail> {
    check_eq(called(a, draw), called(b, draw))?;
    check_eq(a.waiting(), b.waiting())?;
    for i in 0..17 {
        check_eq(a.count(i), b.count(i))?;
    }
    Ok(())
}

/// A thousand calls on two empty airs of the same capacity and bound.
fn agree<A: Air, B: Air>(a: &mut A, b: &mut B) -> Result<(), Fail> {
    check_eq((a.capacity(), a.bound()), (b.capacity(), b.bound()))?;
    let mut draw = 2_026;
    for _ in 0..1_000 {
        draw = next_draw(draw);
        same_call(a, b, draw)?;
    }
    Ok(())
}

#[test]
fn airs_agree_call_by_call() -> Result<(), Fail> {
    let mut memory = [3; 16 * CELL];
    let mut shelf = Shelf::new(&mut memory, 2);
    agree(&mut Pool::new(2), &mut shelf)?;
    agree(&mut Pool::new(5), &mut Tight::new(Pool::new(200), 5))?;
    agree(&mut Tight::new(Lent(&mut shelf), 0), &mut Pool::new(0))
}
