//! Frames of any kind in plain fields: what is the same for all structs that cross to C.
ghost use Rattle.std.specs.Prelude.{◌≡◌};
ghost use Rattle.cerduma.specs.Answers.{filled};
ghost use Rattle.cerduma.specs.Plain.{Form, frame_of, plain_of, read_as, written_as};

use crate::{Answer, done, refused};
use element::Kind;
use frame::{Format, Frame, LONGEST};

/// A frame in plain fields, with those of its element. A bare one has 0 for its number and in all fields of its element where it
/// was read, and where it is written these are not looked at.
#[derive(Clone, Copy)]
pub(crate) struct PlainFrame<E> {
    pub laden: bool,
    pub ack: u16,
    pub number: u16,
    pub element: E,
}

/// A kind that crosses to C. What crosses can have no type parameter, so each kind has a struct of its own for its frames.
pub(crate) trait Plain: Kind {
    /// The fields of an element.
    type Fields: Copy;

    /// The struct of a frame.
    type Frame: Copy;

    /// How the kind crosses, for clauses.
    ghost form: { Form Self Self.Fields Self.Frame };

    /// The fields of no element, which a bare frame has.
    fn none() -> Self::Fields
        ensures { result ≡ form.none };

    /// The fields of an element.
    fn fields(self) -> Self::Fields
        ensures { result ≡ form.fields self };

    /// The element with these fields, which may be out of range.
    fn element(fields: Self::Fields) -> Self
        ensures { result ≡ form.element fields };

    /// The struct with a frame in it.
    fn packed(plain: PlainFrame<Self::Fields>) -> Self::Frame
        ensures { result ≡ form.packed plain };

    /// The frame in a struct.
    fn unpacked(frame: &Self::Frame) -> PlainFrame<Self::Fields>
        ensures { result ≡ form.unpacked frame.now };
}

/// The frame in plain fields.
fn to_plain<K: Plain>(frame: Frame<K>) -> PlainFrame<K::Fields>
    ensures { result ≡ plain_of K.form frame }
{
    match frame {
        Frame::Bare { ack } => PlainFrame {
            laden: false,
            ack,
            number: 0,
            element: K::none(),
        },
        Frame::Laden {
            ack,
            number,
            element,
        } => PlainFrame {
            laden: true,
            ack,
            number,
            element: element.fields(),
        },
    }
}

/// The frame that plain fields tell.
fn from_plain<K: Plain>(plain: PlainFrame<K::Fields>) -> Frame<K>
    ensures { result ≡ frame_of K.form plain }
{
    if plain.laden {
        Frame::Laden {
            ack: plain.ack,
            number: plain.number,
            element: K::element(plain.element),
        }
    } else {
        Frame::Bare { ack: plain.ack }
    }
}

/// Hears a frame, and fills the struct with it. A refusal leaves the struct as it was.
pub(crate) fn read<K: Plain>(format: Format, bytes: &[u8], frame: &mut K::Frame) -> Answer
    ensures { (result, frame.new) ≡ read_as K.coding K.form format bytes.now frame.old }
{
    match frame::hear::<K>(format, bytes) {
        Ok(heard) => {
            *frame = K::packed(to_plain(heard));
            done(bytes.len())
        }
        Err(refusal) => refused(refusal),
    }
}

/// Writes bytes into the front of an area that has room for them, and leaves any other area as it was.
fn fill(area: &mut [u8], bytes: &[u8])
    ensures { area.new ≡ filled bytes.now area.old }
{
    if bytes.len() <= area.len() {
        area[..bytes.len()].copy_from_slice(bytes);
    }
}

/// Writes the frame in a struct into the front of an area that has room for it, and leaves any other area as it was.
#[tactic(auto, using(crate::proofs::Ports::carried_over))]
pub(crate) fn write<K: Plain>(format: Format, frame: &K::Frame, area: &mut [u8]) -> Answer
    ensures { (result, area.new) ≡ written_as K.coding K.form format frame.now area.old }
{
    let mut bytes = [0; LONGEST];
    match frame::write(format, &from_plain::<K>(K::unpacked(frame)), &mut bytes) {
        Ok(length) => {
            fill(area, &bytes[..length]);
            done(length)
        }
        Err(refusal) => refused(refusal),
    }
}
