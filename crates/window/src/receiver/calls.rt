//! The calls of a receiver.
ghost use Rattle.std.specs.Prelude.{◌≡◌, IfOk, length};
ghost use Rattle.protocol.specs.Laws.{behind, placed_in};
ghost use Rattle.protocol.specs.Machine.{new_stream};
ghost use Rattle.protocol.specs.Windows.{first_slot, moved_on, next_free, place_at};
ghost use Rattle.window.specs.Receivers.{placing, slot_of};
ghost use Rattle.window.specs.Seen.{numbers_of, receiver_state, terms_of};

use crate::Receiver;
use frame::Side;
use protocol::{Cycle, Draft, Placement};
use std::alloc::{AllocError, Global};

impl<E: Copy> Receiver<E> {
    /// The receiver of the stream that a side sends, with number 0 and every slot free. Memory for its slots is reserved; want of it is the
    /// only failure.
    #[tactic(auto, using(crate::proofs::Marks::marks_all_free))]
    pub fn new(alloc: Global, draft: &Draft, sender: Side) -> Result<Receiver<E>, AllocError>
        ensures state { IfOk result (λ r. receiver_state r ≡ (new_stream (terms_of draft.now sender).window).receiver) }
        ensures cycle { IfOk result (λ r. r.cycle.length ≡ (terms_of draft.now sender).cycle) }
    {
        let window = draft.sent_by(sender).window as usize;
        let slots = vec![in alloc; None; window]?;
        Ok(Receiver {
            cycle: draft.cycle(sender),
            base: 0,
            slots,
            marks: 0,
        })
    }

    /// How many slots there are.
    pub fn window(&self) -> usize
        ensures { result ≡ length (receiver_state self.now).slots }
    {
        self.slots.len()
    }

    /// The numbers of the stream.
    pub fn cycle(&self) -> Cycle
        ensures { result ≡ self.now.cycle }
    {
        self.cycle
    }

    /// How many slots are filled.
    #[tactic(auto, using(crate::proofs::Marks::marks_counted))]
    pub fn placed(&self) -> usize
        ensures { result ≡ placed_in (receiver_state self.now).slots }
    {
        self.marks.count_ones() as usize
    }

    /// The number of the first free slot, which is what the receiver acknowledges.
    #[tactic(auto, using(crate::proofs::Marks::marks_before_free))]
    pub fn next_free(&self) -> u16
        ensures { result ≡ next_free (numbers_of self.now.cycle) (receiver_state self.now) }
    {
        let (numbers, filled) = (self.cycle, self.marks.trailing_ones() as u16);
        numbers.after(self.base, filled)
    }

    /// How many elements it is behind a sender whose next number this is: as many as that lies after the base. Where the two numbers are
    /// the same, it is a whole cycle behind if a slot is filled, and otherwise not at all.
    pub fn behind(&self, next: u16) -> usize
        ensures { result ≡ behind self.now.cycle.length next (receiver_state self.now) }
    {
        match self.cycle.distance(self.base, next) {
            0 if self.placed() > 0 => usize::from(self.cycle.length()),
            distance => usize::from(distance),
        }
    }

    /// Fills the slot that a number stands for with its element, and answers which; an element outside the window is dropped.
    #[tactic(auto, using(crate::proofs::Marks::marks_filled))]
    pub fn place(&mut self, number: u16, element: E) -> Placement
        ensures value { result ≡ place_at (slot_of (numbers_of self.old.cycle) number (receiver_state self.old)) }
        ensures state { receiver_state self.new ≡ placing (numbers_of self.old.cycle) number element (receiver_state self.old) }
        ensures settings { (self.new.cycle ≡ self.old.cycle) × (length (receiver_state self.new).slots ≡ length (receiver_state self.old).slots) }
    {
        let placement = self.cycle.place(self.base, self.slots.len(), number);
        if let Placement::Slot(d) = placement {
            self.slots[d] = Some(element);
            self.marks |= 1 << d;
        }
        placement
    }

    /// The element in the first slot, if that is filled; the slots then move down by one.
    #[tactic(auto, using(crate::proofs::Marks::marks_moved_on))]
    pub fn pass(&mut self) -> Option<E>
        ensures value { result ≡ first_slot (receiver_state self.old).slots }
        ensures state { receiver_state self.new ≡ moved_on (numbers_of self.old.cycle) result (receiver_state self.old) }
        ensures settings { (self.new.cycle ≡ self.old.cycle) × (length (receiver_state self.new).slots ≡ length (receiver_state self.old).slots) }
    {
        let element = self.slots[0].take()?;
        self.slots.rotate_left(1);
        self.marks >>= 1;
        self.base = self.cycle.after(self.base, 1);
        Some(element)
    }
}
