//! One end of a link.
ghost use Rattle.std.specs.Prelude.{◌≡◌, IfOk};
ghost use Rattle.frame.specs.Formats.{other_side};
ghost use Rattle.link.specs.Acts.{ActsAlone, Hears};
ghost use Rattle.link.specs.Ends.{bare_frame, drafted, end_state, facing, format_by, laden_frame, new_end, settings_of};
ghost use Rattle.link.specs.Lives.{record_of};
ghost use Rattle.link.specs.Replies.{done_reply, heard_reply};
ghost use Rattle.protocol.specs.Machine.Act.{accept, pass};
ghost use Rattle.protocol.specs.Machine.Reply.{passed_on};

use crate::{EndRecord, Hearing};
use element::Kind;
use frame::{Cycles, Format, Frame, Side, hear};
use protocol::{Draft, Placement};
use refusal::Refusal;
use std::alloc::{AllocError, Global};
use window::{Receiver, Sender};

mod over;

/// An end: it sends elements of the kind O, and hears elements of the kind I.
#[derive(Drop)]
pub struct End<O, I> {
    side: Side,
    sender: Sender<O>,
    receiver: Receiver<I>,
}

impl<O: Kind, I: Kind> End<O, I> {
    /// The end of a side, by a draft, with nothing held or placed. Memory for both windows is reserved; want of it is the only failure.
    pub fn new(alloc: Global, draft: &Draft, side: Side) -> Result<End<O, I>, AllocError>
        ensures settings { IfOk result (λ e. settings_of e ≡ drafted side draft.now.hut_bound draft.now.mast_bound) }
        ensures state { IfOk result (λ e. end_state e ≡ new_end (settings_of e)) }
    {
        let sender = Sender::new(alloc, draft, side)?;
        let receiver = Receiver::new(alloc, draft, side.other())?;
        Ok(End {
            side,
            sender,
            receiver,
        })
    }

    /// The format of the frames that it sends.
    pub fn format(&self) -> Format
        ensures { result ≡ format_by (settings_of self.now) }
    {
        Format {
            sender: self.side,
            cycles: Cycles {
                ack: self.receiver.cycle().length(),
                number: self.sender.cycle().length(),
            },
        }
    }

    /// The format of the frames that it hears.
    fn heard_format(&self) -> Format
        ensures { result ≡ format_by (facing (settings_of self.now)) }
    {
        Format {
            sender: self.side.other(),
            cycles: Cycles {
                ack: self.sender.cycle().length(),
                number: self.receiver.cycle().length(),
            },
        }
    }

    /// The frame in which it sends its k-th held element, counted from 0; none if no more than k are held.
    pub fn laden_frame(&self, k: usize) -> Option<Frame<O>>
        ensures { result ≡ laden_frame (settings_of self.now) k (end_state self.now) }
    {
        let (number, element) = self.sender.get(k)?;
        Some(Frame::Laden {
            ack: self.receiver.next_free(),
            number,
            element,
        })
    }

    /// The frame in which it sends its acknowledgement alone.
    pub fn bare_frame(&self) -> Frame<O>
        ensures { result ≡ bare_frame (settings_of self.now) (end_state self.now) }
    {
        let ack = self.receiver.next_free();
        Frame::Bare { ack }
    }

    /// Accepts an element, behind those that it holds. Refused by 4 where as many are held as the window is wide, and then by 17 where a
    /// field is out of range.
    pub fn accept(&mut self, element: O) -> Result<(), Refusal>
        ensures { ActsAlone O.coding I.coding self.old self.new (accept element) (done_reply result) }
    {
        self.sender.accept(element)
    }

    /// Passes on the element in the first slot, if that is filled.
    pub fn pass(&mut self) -> Option<I>
        ensures { ActsAlone O.coding I.coding self.old self.new pass (passed_on result) }
    {
        self.receiver.pass()
    }

    /// Hears the bytes of a frame: what its acknowledgement says is released, and its element fills the slot that its number stands for.
    /// Refused by 10 to 15 where they are no frame of the other side.
    pub fn hear(&mut self, bytes: &[u8]) -> Result<Hearing, Refusal>
        ensures { Hears O.coding I.coding self.old self.new bytes.now (heard_reply result) }
    {
        let (ack, placement) = match hear::<I>(self.heard_format(), bytes)? {
            Frame::Bare { ack } => (ack, Placement::Bare),
            Frame::Laden {
                ack,
                number,
                element,
            } => (ack, self.receiver.place(number, element)),
        };
        let released = self.sender.acknowledge(ack);
        Ok(Hearing {
            released,
            placement,
        })
    }

    /// How many elements it holds, and how many it has placed.
    pub fn record(&self) -> EndRecord
        ensures { result ≡ record_of self.now }
    {
        EndRecord {
            held: self.sender.held(),
            placed: self.receiver.placed(),
        }
    }
}
