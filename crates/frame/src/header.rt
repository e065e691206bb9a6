//! The header of a frame: its first twelve bytes.
ghost use Rattle.std.specs.Prelude.{◌≡◌};
ghost use Rattle.frame.specs.Formats.{header_bytes, sender_byte};
ghost use Rattle.frame.specs.Reads.{tag_in};

use crate::{LONGEST, Side};
use element::WIDEST;
use refusal::Refusal;

/// The fields of a header, behind the mark and the version.
#[derive(Clone, Copy)]
pub(crate) struct Header {
    pub tag: u8,
    pub sender: u8,
    pub ack: u16,
    pub number: u16,
    pub width: u8,
}

/// The version of the format: two bytes behind the mark, "MHL", of which the higher one is 0.
pub(crate) const VERSION: u8 = 1;

/// How many bytes a header has.
pub(crate) const HEADER: usize = 12;

// The longest frame has a header, the widest element and the check.
const _: () = prove!(HEADER + WIDEST + 2 == LONGEST);

/// What a frame carries, by the number that stands for it in the header.
#[derive(Clone, Copy, PartialEq, Eq, Debug)]
pub(crate) enum Tag {
    /// An acknowledgement alone.
    Bare = 1,
    /// An acknowledgement and an element.
    Laden = 2,
}

/// The tag that a byte stands for.
impl TryFrom<u8> for Tag {
    type Error = Refusal;

    ghost try_from_gives = { λ byte tag. tag ≡ tag_in byte };

    fn try_from(byte: u8) -> Result<Tag, Refusal> {
        match byte {
            1 => Ok(Tag::Bare),
            2 => Ok(Tag::Laden),
            _ => Err(Refusal::WrongField { place: 5 }),
        }
    }
}

/// The byte that names a side as the sender.
impl From<Side> for u8 {
    ghost from_gives = { λ side byte. byte ≡ sender_byte side };

    fn from(side: Side) -> u8 {
        match side {
            Side::Mast => 1,
            Side::Hut => 2,
        }
    }
}

impl Header {
    /// The twelve bytes.
    pub(crate) fn bytes(self) -> [u8; HEADER]
        ensures { result ≡ header_bytes self }
    {
        let [a0, a1] = self.ack.to_be_bytes();
        let [n0, n1] = self.number.to_be_bytes();
        [
            b'M',
            b'H',
            b'L',
            0,
            VERSION,
            self.tag,
            self.sender,
            a0,
            a1,
            n0,
            n1,
            self.width,
        ]
    }
}
