//! Writing frames.
ghost use Rattle.std.specs.Prelude.{◌≡◌, ◌+◌, ◌≤◌, ◌++◌, length, take, None, Ok};
ghost use Rattle.octets.specs.Areas.{front, written_unless};
ghost use Rattle.frame.specs.Formats.{frame_bytes, header_bytes, mapped, sealed_bytes};
ghost use Rattle.frame.specs.Trips.{HeardBack, Sized};
ghost use Rattle.frame.specs.Writes.{element_refusal, write_into};

use crate::header::{HEADER, Header, Tag};
use crate::{Format, Frame, LONGEST, Side};
use element::{Kind, WIDEST};
use octets::check_of;
use refusal::Refusal;

/// Writes a part behind the first n bytes of the area.
fn append(area: &mut [u8; LONGEST], n: usize, part: &[u8])
    requires { n + length part.now ≤ 32 }
    ensures { area.new ≡ front (take n area.old ++ part.now) area.old }
{
    area[n..n + part.len()].copy_from_slice(part);
}

/// Writes the bytes of a header, those of an element, and the check of both into the front of the area, and answers how many
/// bytes these are. It is inlined, since copying is quicker where it is known how wide a kind is.
#[inline(always)]
fn write_with_check(header: Header, element: &[u8], area: &mut [u8; LONGEST]) -> usize
    requires { length element.now ≤ 18 }
    ensures { (Ok result, area.new) ≡ written_unless None (sealed_bytes (header_bytes header ++ element.now)) area.old }
{
    let n = HEADER + element.len();
    append(area, 0, &header.bytes());
    append(area, HEADER, element);
    let check = check_of(&area[..n]).to_be_bytes();
    append(area, n, &check);
    n + check.len()
}

impl<K: Kind> Frame<K> {
    /// Writes the frame, whatever its numbers, into the front of the area, and answers how many bytes it has; refused where a
    /// field of its element is out of range.
    #[tactic(auto, unfolding(crate::specs::Formats::frame_bytes))]
    fn write_by(&self, sender: Side, area: &mut [u8; LONGEST]) -> Result<usize, Refusal>
        ensures { (result, area.new) ≡ written_unless (element_refusal K.coding self.now) (frame_bytes sender (mapped K.coding.written self.now)) area.old }
    {
        let sender = u8::from(sender);
        match *self {
            Frame::Bare { ack } => {
                let header = Header {
                    tag: Tag::Bare as u8,
                    sender,
                    ack,
                    number: 0,
                    width: 0,
                };
                Ok(write_with_check(header, &[], area))
            }
            Frame::Laden {
                ack,
                number,
                element,
            } => {
                let mut bytes = [0; WIDEST];
                let width = element.write(&mut bytes)?;
                let header = Header {
                    tag: Tag::Laden as u8,
                    sender,
                    ack,
                    number,
                    width: width as u8,
                };
                Ok(write_with_check(header, &bytes[..width], area))
            }
        }
    }
}

/// Writes a frame into the front of the area and answers how many bytes it has. A refusal leaves the area as it was.
pub fn write<K: Kind>(
    format: Format,
    frame: &Frame<K>,
    area: &mut [u8; LONGEST],
) -> Result<usize, Refusal>
    ensures answer { (result, area.new) ≡ write_into K.coding format frame.now area.old }
    ensures size { Sized result }
    ensures heard { HeardBack K.coding format frame.now area.new result }
{
    frame.on_cycle(format)?;
    frame.write_by(format.sender, area)
}
