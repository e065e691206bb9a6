//! Reading frames.
ghost use Rattle.std.specs.Prelude.{◌≡◌, true, is_ok};
ghost use Rattle.frame.specs.Causes.{SmallestFirst};
ghost use Rattle.frame.specs.Formats.{mapped_answer};
ghost use Rattle.frame.specs.Reads.{bare_in, frame_in, hear_from, is_sealed, laden_in, kept_on_cycle, parts_in, parts_seen, read_from};
ghost use Rattle.frame.specs.Trips.{OneByteSafe, OnlyHeard, OnlyWritten};

use crate::header::{HEADER, Header, Tag, VERSION};
use crate::{Format, Frame, LONGEST, Side};
use element::Kind;
use octets::check_of;
use refusal::Refusal;

/// How many bytes the shortest frame has: a header and the check.
const SHORTEST: usize = HEADER + 2;

/// Whether the last two bytes are the check of those before.
fn is_sealed(bytes: &[u8]) -> bool
    ensures { result ≡ is_sealed bytes.now }
{
    let [covered @ .., high, low] = bytes else {
        return false;
    };
    check_of(covered) == u16::from_be_bytes([*high, *low])
}

/// The header of the bytes heard, and the bytes between it and the check.
#[derive(Clone, Copy)]
struct Parts<'a> {
    header: Header,
    element: &'a [u8],
}

/// The parts of bytes that are 14 to 32 and begin with the mark and the version.
impl<'a> TryFrom<&'a [u8]> for Parts<'a> {
    type Error = Refusal;

    ghost try_from_gives = { λ bytes parts. parts_seen parts ≡ parts_in bytes.now };

    fn try_from(bytes: &'a [u8]) -> Result<Parts<'a>, Refusal> {
        if bytes.len() < SHORTEST || bytes.len() > LONGEST {
            return Err(Refusal::FrameLength);
        }
        let [
            b'M',
            b'H',
            b'L',
            0,
            VERSION,
            tag,
            sender,
            a0,
            a1,
            n0,
            n1,
            width,
            element @ ..,
            _,
            _,
        ] = bytes
        else {
            return Err(Refusal::MarkOrVersion);
        };
        let header = Header {
            tag: *tag,
            sender: *sender,
            ack: u16::from_be_bytes([*a0, *a1]),
            number: u16::from_be_bytes([*n0, *n1]),
            width: *width,
        };
        Ok(Parts { header, element })
    }
}

impl<'a> Parts<'a> {
    /// The bare frame that the header says.
    fn bare(self) -> Result<Frame<&'a [u8]>, Refusal>
        ensures { mapped_answer (λ e. e.now) result ≡ bare_in self.entry.header self.entry.element.now }
    {
        if self.header.number != 0 {
            return Err(Refusal::WrongField { place: 9 });
        }
        if self.header.width != 0 || !self.element.is_empty() {
            return Err(Refusal::WrongField { place: 11 });
        }
        Ok(Frame::Bare {
            ack: self.header.ack,
        })
    }

    /// The laden frame that the header says, of the kind K.
    fn laden<K: Kind>(self) -> Result<Frame<&'a [u8]>, Refusal>
        ensures { mapped_answer (λ e. e.now) result ≡ laden_in K.coding.width self.entry.header self.entry.element.now }
    {
        let width = K::width();
        if usize::from(self.header.width) != width || self.element.len() != width {
            return Err(Refusal::WrongField { place: 11 });
        }
        Ok(Frame::Laden {
            ack: self.header.ack,
            number: self.header.number,
            element: self.element,
        })
    }

    /// The frame that the parts are, if the header's fields are well formed.
    fn well_formed<K: Kind>(self, sender: Side) -> Result<Frame<&'a [u8]>, Refusal>
        ensures { mapped_answer (λ e. e.now) result ≡ frame_in sender K.coding.width self.entry.header self.entry.element.now }
    {
        let tag = Tag::try_from(self.header.tag)?;
        if self.header.sender != u8::from(sender) {
            return Err(Refusal::WrongField { place: 6 });
        }
        match tag {
            Tag::Bare => self.bare(),
            Tag::Laden => self.laden::<K>(),
        }
    }

    /// The same, if its numbers are below their cycles too.
    fn frame<K: Kind>(self, format: Format) -> Result<Frame<&'a [u8]>, Refusal>
        ensures { mapped_answer (λ e. e.now) result ≡ kept_on_cycle format (frame_in format.sender K.coding.width self.entry.header self.entry.element.now) }
    {
        let frame = self.well_formed::<K>(format.sender)?;
        frame.on_cycle(format)?;
        Ok(frame)
    }
}

/// The frame in the bytes heard, for a kind K of element that is not looked into; or why they are none.
pub fn read<'a, K: Kind>(format: Format, bytes: &'a [u8]) -> Result<Frame<&'a [u8]>, Refusal>
    ensures answer { mapped_answer (λ e. e.now) result ≡ read_from format K.coding.width bytes.now }
    ensures only { OnlyWritten format K.coding.width bytes.now (mapped_answer (λ e. e.now) result) }
    ensures safe { is_ok result ≡ true → OneByteSafe format K.coding.width bytes.now }
    ensures smallest { SmallestFirst format K.coding.width bytes.now result }
{
    let parts = Parts::try_from(bytes)?;
    if !is_sealed(bytes) {
        return Err(Refusal::WrongCheck {
            place: bytes.len() - 2,
        });
    }
    parts.frame::<K>(format)
}

/// What the bytes heard say, with the element of the kind K; or why they are refused.
pub fn hear<K: Kind>(format: Format, bytes: &[u8]) -> Result<Frame<K>, Refusal>
    ensures answer { result ≡ hear_from K.coding format bytes.now }
    ensures only { OnlyHeard K.coding format bytes.now result }
    ensures safe { is_ok result ≡ true → OneByteSafe format K.coding.width bytes.now }
{
    match read::<K>(format, bytes)? {
        Frame::Bare { ack } => Ok(Frame::Bare { ack }),
        Frame::Laden {
            ack,
            number,
            element,
        } => {
            let element = K::read(element).map_err(|at| Refusal::NoElement { place: HEADER + at })?;
            Ok(Frame::Laden {
                ack,
                number,
                element,
            })
        }
    }
}
