//! Tests of boards, one for each kind of element.
use crate::checks::check_eq;
use crate::kinds::{ByNumber, ozone, reading, wind};
use board::Board;
use element::Kind;
use element::order::{Order, OrderHeadline, Tag};
use element::ozone::OzoneHeadline;
use element::reading::ReadingHeadline;
use element::wind::WindHeadline;
use std::fmt::Debug;
use std::test::Fail;

/// A board shows nothing and 0 at first, and then the headline of each of three elements as it is posted, and how many they are. Posting
/// none at all changes nothing, and posting all three at once shows the third.
fn shows<K: Kind>(elements: &[K], headlines: &[K::Headline]) -> Result<(), Fail>
where
    K::Headline: PartialEq + Debug,
{
    let mut board = Board::<K>::new();
    board.post_all(&[]);
    check_eq((board.latest(), board.count()), (None, 0))?;
    for ((element, headline), count) in elements.iter().zip(headlines).zip(1..=3u32) {
        board.post(element);
        check_eq((board.latest(), board.count()), (Some(*headline), count))?;
    }
    let mut board = Board::<K>::new();
    board.post_all(elements);
    board.post_all(&[]);
    check_eq(
        (board.latest(), board.count()),
        (headlines.last().copied(), 3),
    )
}

/// The headline of a reading.
fn height_and_temperature(height: i32, temperature: i16) -> ReadingHeadline {
    ReadingHeadline {
        height,
        temperature,
    }
}

/// The headline of a wind.
fn direction_and_speed(direction: u16, speed: u16) -> WindHeadline {
    WindHeadline { direction, speed }
}

#[test]
fn boards_of_each_kind() -> Result<(), Fail> {
    shows(
        &[
            reading(9, 15_234, -425),
            reading(8, -5_000, 6_000),
            reading(7, 1, 2),
        ],
        &[
            height_and_temperature(15_234, -425),
            height_and_temperature(-5_000, 6_000),
            height_and_temperature(1, 2),
        ],
    )?;
    shows(
        &[ozone(9, 1_234, -425), ozone(8, 0, 1), ozone(7, 5_000, 0)],
        &[1_234, 0, 5_000].map(|partial_pressure| OzoneHeadline { partial_pressure }),
    )?;
    shows(
        &[wind(9, 27_150, 83), wind(8, 35_999, 0), wind(7, 1, 2_000)],
        &[
            direction_and_speed(27_150, 83),
            direction_and_speed(35_999, 0),
            direction_and_speed(1, 2_000),
        ],
    )?;
    let point = Order::Point {
        bearing: 1,
        elevation: 3,
    };
    shows(
        &[Order::Tune { khz: 403_000 }, point, Order::of(2)],
        &[Tag::Tune, Tag::Point, Tag::Note].map(|tag| OrderHeadline { tag }),
    )
}
