//! Kinds of element: what a link carries, which values are allowed, and their bytes.
//!
//! It must know nothing of frames, airs and links. So reading answers at which offset of the element a field is at fault, and not
//! where that is in a frame.
#![tactic(auto)]

ghost use Rattle.std.specs.Prelude.{◌≡◌, ℕ, ◌<◌, ◌≤◌, List, length, take, Some, None, Ok, Err};
ghost use Rattle.std.specs.List.{AllByRecursion};
ghost use Rattle.octets.specs.Areas.{front};
ghost use Rattle.element.specs.Kinds.{Coding, InOrder, element_from, element_into, fault_of, made_from};

use refusal::Refusal;

pub mod order;
pub mod ozone;
pub mod reading;
pub mod wind;

/// No kind is wider than this, in bytes.
pub const WIDEST: usize = 18;

/// A kind of element. A value of the type is an element where none of its fields is out of range; its fields are public, so
/// that a caller may hand over any value, and `make` and `write` refuse one that is no element.
///
/// Who adds a kind gives the width, the coding, the headline, and the calls `fault`, `lay_out`, `value` and `headline`, and shows the
/// laws; the other calls follow.
pub trait Kind: Copy {
    /// The width of an element in bytes.
    const W: usize;

    /// The part of an element that a console shows.
    type Headline: Copy;

    /// The same, for clauses.
    ghost W: { ℕ };

    /// The kind's bytes and fields, for clauses.
    ghost coding: { Coding Self };

    /// The headline of a value, for clauses.
    ghost headline: { Self → Self.Headline };

    /// Some element.
    ghost example: { Self };

    /// The width.
    fn width() -> usize
        ensures { result ≡ coding.width }
    {
        Self::W
    }

    /// The offset of the first field out of range; none for an element.
    fn fault(&self) -> Option<usize>
        ensures { result ≡ fault_of coding self.now };

    /// Lays the fields out in the front of the area, in range or not.
    fn lay_out(&self, area: &mut [u8; WIDEST])
        ensures { area.new ≡ front (coding.written self.now) area.old };

    /// The value that bytes hold, in range or not; none where they are not as many as the kind is wide, or their tag is unknown.
    fn value(bytes: &[u8]) -> Option<Self>
        ensures { result ≡ coding.value bytes.now };

    /// The value's headline.
    fn headline(&self) -> Self::Headline
        ensures { result ≡ headline self.now };

    /// The value as an element; refused where a field is out of range.
    fn make(self) -> Result<Self, Refusal>
    where
        Self: Sized,
        ensures { result ≡ made_from coding self }
    {
        match self.fault() {
            Some(_) => Err(Refusal::FieldOutOfRange),
            None => Ok(self),
        }
    }

    /// Writes the element into the front of the area and answers its width; refused where a field is out of range.
    fn write(&self, area: &mut [u8; WIDEST]) -> Result<usize, Refusal>
        ensures answer { (result, area.new) ≡ element_into coding self.now area.old }
        ensures back { elim result [ Ok n ↦ element_from coding (take n area.new) ≡ Ok self.now | Err _ ↦ Unit {0} ] }
    {
        self.make()?.lay_out(area);
        Ok(Self::width())
    }

    /// The element that bytes hold, or the offset of the first field at fault.
    fn read(bytes: &[u8]) -> Result<Self, usize>
        ensures answer { result ≡ element_from coding bytes.now }
        ensures only { elim result [ Ok e ↦ (fault_of coding e ≡ None) × (coding.written e ≡ bytes.now) | Err at ↦ at < coding.width ] }
    {
        let element = Self::value(bytes).ok_or(0usize)?;
        match element.fault() {
            Some(at) => Err(at),
            None => Ok(element),
        }
    }

    /// The constant is the coding's width.
    ghost wide: { coding.width ≡ W };

    /// A width is 1 to 18.
    ghost narrow: { (1 ≤ coding.width) × (coding.width ≤ 18) };

    /// There is at least one element.
    ghost inhabited: { fault_of coding example ≡ None };

    /// Writing gives as many bytes as the kind is wide.
    ghost exact: { (e : Self) → length (coding.written e) ≡ coding.width };

    /// The bytes of an element hold that element.
    ghost returned: { (e : Self) → fault_of coding e ≡ None → coding.value (coding.written e) ≡ Some e };

    /// Bytes that hold a value are the bytes of that value, so that no other bytes hold it.
    ghost only: { (bs : List ℕ) (e : Self) → AllByRecursion (λ b. b < 256) bs → coding.value bs ≡ Some e → coding.written e ≡ bs };

    /// The fields stand in the order of their offsets, so that the first one at fault has the lowest.
    ghost ordered: { (e : Self) → InOrder (coding.fields e) };

    /// A field at fault lies within the element.
    ghost inside: { (e : Self) (at : ℕ) → fault_of coding e ≡ Some at → at < coding.width };
}
