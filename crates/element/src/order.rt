//! Orders: what the hut asks of the mast.
ghost use Rattle.std.specs.Prelude.{◌≡◌};
ghost use Rattle.element.specs.Orders.{an_order, order_coding, order_headline, order_tag, tag_of};
ghost use Rattle.element.specs.OrderLaws.{order_only};
ghost use Rattle.std.proofs.Common.{rules};

use crate::{Kind, WIDEST};

/// Where the receiver is to be tuned, where the antenna is to point, or which launch note is meant.
#[derive(Clone, Copy, PartialEq, Eq, Debug)]
pub enum Order {
    /// The frequency, 400,150 to 406,000 kHz.
    Tune { khz: u32 },
    /// The bearing, 0 to 35,999, and the elevation, 0 to 9,000, both in hundredths of a degree.
    Point { bearing: u16, elevation: u16 },
    /// A launch note, by any number.
    Note { number: u32 },
}

/// Which order it is, as the first byte says.
#[derive(Clone, Copy, PartialEq, Eq, Debug)]
pub enum Tag {
    /// The receiver is to be tuned.
    Tune = 1,
    /// The antenna is to point somewhere.
    Point = 2,
    /// A launch note is meant.
    Note = 3,
}

/// A byte that is no tag.
#[derive(Clone, Copy, PartialEq, Eq, Debug)]
pub struct UnknownTag;

impl TryFrom<u8> for Tag {
    type Error = UnknownTag;

    ghost try_from_gives = { λ byte tag. tag ≡ tag_of byte };

    fn try_from(byte: u8) -> Result<Tag, UnknownTag> {
        match byte {
            1 => Ok(Tag::Tune),
            2 => Ok(Tag::Point),
            3 => Ok(Tag::Note),
            _ => Err(UnknownTag),
        }
    }
}

impl Order {
    /// The tag of an order to tune.
    pub const TUNE: u8 = Tag::Tune as u8;

    /// The tag of an order to point.
    pub const POINT: u8 = Tag::Point as u8;

    /// The tag of a launch note.
    pub const NOTE: u8 = Tag::Note as u8;

    /// The lowest frequency, in kHz.
    pub const MIN_KHZ: u32 = 400_150;

    /// The highest frequency, in kHz.
    pub const MAX_KHZ: u32 = 406_000;

    /// The largest bearing, in hundredths of a degree; the smallest is 0.
    pub const MAX_BEARING: u16 = 35_999;

    /// The largest elevation, in hundredths of a degree; the smallest is 0.
    pub const MAX_ELEVATION: u16 = 9_000;

    /// Which order it is.
    fn tag(&self) -> Tag
        ensures { result ≡ order_tag self.now }
    {
        match self {
            Order::Tune { .. } => Tag::Tune,
            Order::Point { .. } => Tag::Point,
            Order::Note { .. } => Tag::Note,
        }
    }
}

/// What a console shows of an order: which one it is.
#[derive(Clone, Copy, PartialEq, Eq, Debug)]
pub struct OrderHeadline {
    /// Which order it is.
    pub tag: Tag,
}

/// Five bytes: the tag, and 32 bits of what it says.
impl Kind for Order {
    const W: usize = 5;

    type Headline = OrderHeadline;

    ghost W = { 5 };

    ghost coding = { order_coding };

    ghost headline = { order_headline };

    ghost example = { an_order };

    ghost wide = { Prim.search rules };

    ghost narrow = { Prim.search rules };

    ghost inhabited = { Prim.search rules };

    ghost exact = { Prim.search rules };

    ghost returned = { Prim.search rules };

    ghost only = { order_only };

    ghost ordered = { Prim.search rules };

    ghost inside = { Prim.search rules };

    fn fault(&self) -> Option<usize> {
        match *self {
            Order::Tune { khz } if !(Self::MIN_KHZ..=Self::MAX_KHZ).contains(&khz) => Some(1),
            Order::Point { bearing, .. } if bearing > Self::MAX_BEARING => Some(1),
            Order::Point { elevation, .. } if elevation > Self::MAX_ELEVATION => Some(3),
            Order::Tune { .. } | Order::Point { .. } => None,
            // Any number is in range: it is read for its type's bound alone.
            Order::Note { number: _number } => None,
        }
    }

    fn lay_out(&self, area: &mut [u8; WIDEST]) {
        let [a, b, c, d] = match *self {
            Order::Tune { khz } => khz.to_be_bytes(),
            Order::Point { bearing, elevation } => {
                let [a, b] = bearing.to_be_bytes();
                let [c, d] = elevation.to_be_bytes();
                [a, b, c, d]
            }
            Order::Note { number } => number.to_be_bytes(),
        };
        let bytes = [self.tag() as u8, a, b, c, d];
        area[..bytes.len()].copy_from_slice(&bytes);
    }

    fn value(bytes: &[u8]) -> Option<Order> {
        let &[tag, a, b, c, d] = bytes else {
            return None;
        };
        Some(match Tag::try_from(tag).ok()? {
            Tag::Tune => Order::Tune {
                khz: u32::from_be_bytes([a, b, c, d]),
            },
            Tag::Point => Order::Point {
                bearing: u16::from_be_bytes([a, b]),
                elevation: u16::from_be_bytes([c, d]),
            },
            Tag::Note => Order::Note {
                number: u32::from_be_bytes([a, b, c, d]),
            },
        })
    }

    fn headline(&self) -> OrderHeadline {
        OrderHeadline { tag: self.tag() }
    }
}
