//! Why a call says no: one enum for the calls of all crates. Each cause has a number and a text, and those that are about the bytes
//! of a frame have a place.
//!
//! It stands on no other crate. It must know nothing of when a cause applies: each crate says that of its own calls.
#![tactic(auto)]

ghost use Rattle.std.specs.Prelude.{◌≡◌};
ghost use Rattle.refusal.specs.Refusals.{number_of, place_of, reason_of, shown_of};

use std::error::Error;
use std::fmt;

/// The causes, in the order of their numbers. A call to which several apply answers the one with the smallest number, and
/// of equal numbers the one with the lowest place; but putting a frame into an air tests 9 before 6.
#[derive(Clone, Copy, PartialEq, Eq, Debug)]
pub enum Refusal {
    /// 1: a drafted window is not 1 to 32.
    WindowOutOfLimits,
    /// 2: a drafted bound is not 0 to 255.
    BoundOutOfLimits,
    /// 3: a drafted cycle is shorter than its window and the bounds ask for, or longer than 16,384.
    CycleOutOfLimits,
    /// 4: as many elements are held as the window is wide.
    WindowFull,
    /// 5: no element is held at that place.
    NotHeld,
    /// 6: as many frames wait in the air as it has room for.
    AirFull,
    /// 7: no frame waits at that place.
    NoFrame,
    /// 8: an older frame has been overtaken as often as the bound allows.
    BoundReached,
    /// 9: what is put into an air has 0 bytes or more than 32.
    SizeOutOfLimits,
    /// 10: the bytes heard are not 14 to 32. Its place is 0.
    FrameLength,
    /// 11: the bytes heard do not begin with the mark and the version. Its place is 0.
    MarkOrVersion,
    /// 12: the check is not that of the bytes before it. Its place is the check's first byte.
    WrongCheck { place: usize },
    /// 13: a header field is not as the format says: byte 5, 6, 9 or 11, which is its place.
    WrongField { place: usize },
    /// 14: an acknowledgement or a number is not below its cycle: place 7 or 9.
    NumberPastCycle { place: usize },
    /// 15: the element's bytes are no element of the kind. Its place is that of the first field at fault.
    NoElement { place: usize },
    /// 16: a list lent to settle is too short.
    ListTooShort,
    /// 17: an element that is made, or given by itself, has a field out of range.
    FieldOutOfRange,
    /// 18: an air that settle needs has room for no frame.
    NoRoomInAir,
}

impl Refusal {
    /// The number by which the cause is known, 1 to 18.
    pub fn number(self) -> u8
        ensures { result ≡ number_of self }
    {
        match self {
            Refusal::WindowOutOfLimits => 1,
            Refusal::BoundOutOfLimits => 2,
            Refusal::CycleOutOfLimits => 3,
            Refusal::WindowFull => 4,
            Refusal::NotHeld => 5,
            Refusal::AirFull => 6,
            Refusal::NoFrame => 7,
            Refusal::BoundReached => 8,
            Refusal::SizeOutOfLimits => 9,
            Refusal::FrameLength => 10,
            Refusal::MarkOrVersion => 11,
            Refusal::WrongCheck { .. } => 12,
            Refusal::WrongField { .. } => 13,
            Refusal::NumberPastCycle { .. } => 14,
            Refusal::NoElement { .. } => 15,
            Refusal::ListTooShort => 16,
            Refusal::FieldOutOfRange => 17,
            Refusal::NoRoomInAir => 18,
        }
    }

    /// The byte of the frame that is at fault, for the causes that are about the bytes of a frame.
    pub fn place(self) -> Option<usize>
        ensures { result ≡ place_of self }
    {
        match self {
            Refusal::FrameLength | Refusal::MarkOrVersion => Some(0),
            Refusal::WrongCheck { place }
            | Refusal::WrongField { place }
            | Refusal::NumberPastCycle { place }
            | Refusal::NoElement { place } => Some(place),
            _ => None,
        }
    }

    /// The cause, in words for people.
    fn reason(self) -> &'static str
        ensures { result.now ≡ reason_of self }
    {
        match self {
            Refusal::WindowOutOfLimits => "a window is not 1 to 32",
            Refusal::BoundOutOfLimits => "a bound is not 0 to 255",
            Refusal::CycleOutOfLimits => "a cycle is outside its limits",
            Refusal::WindowFull => "the window is full",
            Refusal::NotHeld => "no element is held there",
            Refusal::AirFull => "the air is full",
            Refusal::NoFrame => "no frame waits there",
            Refusal::BoundReached => "an older frame cannot be overtaken again",
            Refusal::SizeOutOfLimits => "an air carries 1 to 32 bytes",
            Refusal::FrameLength => "a frame has 14 to 32 bytes",
            Refusal::MarkOrVersion => "no mark and version of this format",
            Refusal::WrongCheck { .. } => "the check is wrong",
            Refusal::WrongField { .. } => "a header field is wrong",
            Refusal::NumberPastCycle { .. } => "a number is not below its cycle",
            Refusal::NoElement { .. } => "these bytes are no element of the kind",
            Refusal::ListTooShort => "a list is too short",
            Refusal::FieldOutOfRange => "a field is out of range",
            Refusal::NoRoomInAir => "an air has no room",
        }
    }
}

/// For people: the number, the place if there is one, and the cause in words.
impl fmt::Display for Refusal {
    ghost output = { shown_of };

    fn fmt<W: fmt::Write>(&self, f: &mut fmt::Formatter<W>) -> fmt::Result {
        let number = self.number();
        let reason = self.reason();
        match self.place() {
            Some(place) => write!(f, "refusal {number} at byte {place}: {reason}"),
            None => write!(f, "refusal {number}: {reason}"),
        }
    }
}

impl Error for Refusal {}
