//! Numbers that start over.
ghost use Rattle.std.specs.Prelude.{◌≡◌, ◌≤◌, None, Some, cond, ◌==◌, option_map};
ghost use Rattle.protocol.specs.Windows.{GoesTo, LiesAfter, Releases, cyclic, place_at, released, slot_for};

use crate::Placement;

/// A cycle: the numbers below its length, which then start over.
#[derive(Clone, Copy, PartialEq, Eq, Debug)]
pub struct Cycle {
    length: u16,
    ghost some: { 1 ≤ length },
}

impl Cycle {
    /// A cycle of so many numbers, or none for 0.
    pub fn new(length: u16) -> Option<Cycle>
        ensures { option_map (λ cycle. cycle.length) result ≡ cond (length == 0) None (Some length) }
    {
        if length == 0 {
            None
        } else {
            Some(Cycle { length })
        }
    }

    /// How many numbers there are.
    pub fn length(self) -> u16
        ensures { result ≡ self.length }
    {
        self.length
    }

    /// The number that lies so many places after `number`.
    pub fn after(self, number: u16, places: u16) -> u16
        ensures { result ≡ (cyclic self.length).after number places }
    {
        ((u32::from(number) + u32::from(places)) % u32::from(self.length)) as u16
    }

    /// How many places a second number lies after a first.
    #[tactic(auto, using(crate::proofs::Numbers::lies_after))]
    pub fn distance(self, first: u16, second: u16) -> u16
        ensures value { result ≡ (cyclic self.length).distance first second }
        ensures lies { LiesAfter self.length first second result }
    {
        let back = self.length - first % self.length;
        ((u32::from(second) + u32::from(back)) % u32::from(self.length)) as u16
    }

    /// How many of so many held elements, the first of which has the number `low`, an acknowledgement releases: as many as it lies after
    /// `low`, if that many are held, and none otherwise.
    #[tactic(auto, using(crate::proofs::Numbers::releases_all, crate::proofs::Numbers::releases_none))]
    pub fn released(self, low: u16, held: usize, ack: u16) -> usize
        ensures value { result ≡ released (cyclic self.length) low held ack }
        ensures law { Releases self.length low held ack result }
    {
        let d = usize::from(self.distance(low, ack));
        if d <= held { d } else { 0 }
    }

    /// What becomes of an element with this number at a receiver with so many slots, the first of which has the number `base`.
    #[tactic(auto, using(crate::proofs::Numbers::goes_nowhere))]
    pub fn place(self, base: u16, window: usize, number: u16) -> Placement
        ensures value { result ≡ place_at (slot_for (cyclic self.length) base window number) }
        ensures law { GoesTo self.length base window number result }
    {
        let d = usize::from(self.distance(base, number));
        if d < window {
            Placement::Slot(d)
        } else {
            Placement::Outside
        }
    }
}
