//! The calls of a sender.
ghost use Rattle.std.specs.Prelude.{◌≡◌, IfOk, length};
ghost use Rattle.protocol.specs.Machine.{new_stream};
ghost use Rattle.protocol.specs.Windows.{acknowledged, released};
ghost use Rattle.window.specs.Seen.{numbers_of, sender_state, terms_of};
ghost use Rattle.window.specs.Senders.{accepting, held_at};

use crate::Sender;
use element::Kind;
use frame::Side;
use protocol::{Cycle, Draft};
use refusal::Refusal;
use std::alloc::{AllocError, Global};

impl<E: Kind> Sender<E> {
    /// The sender of the stream that a side sends, with number 0 and nothing held. Memory for its window is reserved; want of it is the
    /// only failure.
    pub fn new(alloc: Global, draft: &Draft, side: Side) -> Result<Sender<E>, AllocError>
        ensures state { IfOk result (λ s. sender_state s ≡ (new_stream s.window).sender) }
        ensures window { IfOk result (λ s. s.window ≡ (terms_of draft.now side).window) }
        ensures cycle { IfOk result (λ s. s.cycle.length ≡ (terms_of draft.now side).cycle) }
    {
        let window = draft.sent_by(side).window as usize;
        let held = Vec::with_capacity(alloc, window)?;
        Ok(Sender {
            cycle: draft.cycle(side),
            window,
            low: 0,
            held,
        })
    }

    /// How many elements may be held.
    pub fn window(&self) -> usize
        ensures { result ≡ self.now.window }
    {
        self.window
    }

    /// The numbers of the stream.
    pub fn cycle(&self) -> Cycle
        ensures { result ≡ self.now.cycle }
    {
        self.cycle
    }

    /// How many elements are held.
    pub fn held(&self) -> usize
        ensures { result ≡ length (sender_state self.now).held }
    {
        self.held.len()
    }

    /// The number that the next accepted element will have.
    pub fn next(&self) -> u16
        ensures { result ≡ (numbers_of self.now.cycle).after self.now.low (length (sender_state self.now).held) }
    {
        let (numbers, held) = (self.cycle, self.held.len() as u16);
        numbers.after(self.low, held)
    }

    /// The k-th held element, counted from 0, and its number; none if no more than k are held.
    pub fn get(&self, k: usize) -> Option<(u16, E)>
        ensures { result ≡ held_at (numbers_of self.now.cycle) k (sender_state self.now) }
    {
        let element = *self.held.get(k)?;
        Some((self.cycle.after(self.low, k as u16), element))
    }

    /// Holds one more element, behind those held. Refused by 4 where as many are held as the window is wide, and then by 17 where a field
    /// is out of range.
    pub fn accept(&mut self, element: E) -> Result<(), Refusal>
        ensures value { (result, sender_state self.new) ≡ accepting E.coding self.old.window element (sender_state self.old) }
        ensures settings { (self.new.window ≡ self.old.window) × (self.new.cycle ≡ self.old.cycle) }
    {
        if self.held.len() >= self.window {
            return Err(Refusal::WindowFull);
        }
        let element = element.make()?;
        self.held.push(element).unwrap();
        Ok(())
    }

    /// Releases what an acknowledgement says, and answers how many elements that are.
    pub fn acknowledge(&mut self, ack: u16) -> usize
        ensures value { let s = sender_state self.old in result ≡ released (numbers_of self.old.cycle) s.low (length s.held) ack }
        ensures state { sender_state self.new ≡ acknowledged (numbers_of self.old.cycle) ack (sender_state self.old) }
        ensures settings { (self.new.window ≡ self.old.window) × (self.new.cycle ≡ self.old.cycle) }
    {
        let d = usize::from(self.cycle.distance(self.low, ack));
        if d > self.held.len() {
            return 0;
        }
        self.held.drain(..d);
        self.low = ack;
        d
    }
}
