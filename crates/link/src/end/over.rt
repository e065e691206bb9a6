//! An end and the airs between it and the other end. They are tight airs, since every air of a link is held to a bound.
ghost use Rattle.std.specs.Prelude.{◌≡◌, length};
ghost use Rattle.air.specs.Waiting.{AirState};
ghost use Rattle.air.specs.Steps.{Bytes};
ghost use Rattle.link.specs.Acts.{ActedOn, Acts, Puts};
ghost use Rattle.link.specs.Ends.{end_state, settings_of};
ghost use Rattle.link.specs.Replies.{done_reply, heard_reply};
ghost use Rattle.protocol.specs.Laws.{behind};
ghost use Rattle.protocol.specs.Machine.Act.{bare, deliver, repeat, send};
ghost use Rattle.protocol.specs.Windows.{cyclic};
ghost use Rattle.tight.specs.SameList.{Keeps};
ghost use Rattle.tight.specs.Tights.{tight_state};

use crate::{End, Hearing};
use air::{Air, Gauge};
use element::Kind;
use frame::{Frame, LONGEST, write};
use refusal::Refusal;
use tight::Tight;

impl<O: Kind, I: Kind> End<O, I> {
    /// How many elements it holds.
    pub(crate) fn held(&self) -> usize
        ensures { result ≡ length (end_state self.now).sender.held }
    {
        self.sender.held()
    }

    /// How many slots it has.
    pub(crate) fn slots(&self) -> usize
        ensures { result ≡ length (end_state self.now).receiver.slots }
    {
        self.receiver.window()
    }

    /// How many elements it has still to get from another end, by what both keep.
    pub(crate) fn awaits(&self, other: &End<I, O>) -> usize
        ensures { let s = (end_state other.now).sender in
            let next = (cyclic other.now.sender.cycle.length).after s.low (length s.held) in
            result ≡ behind self.now.receiver.cycle.length next (end_state self.now).receiver }
    {
        self.receiver.behind(other.sender.next())
    }

    /// Puts a frame into an air that has room for it.
    fn put<A: Air>(&self, frame: &Frame<O>, air: &mut Tight<A>) -> Result<(), Refusal>
        ensures step { Puts {F = I} O.coding (settings_of self.now) frame.now
            (tight_state A.Gauge.state air.old) (tight_state A.Gauge.state air.new) (done_reply result) }
        ensures air { Keeps A.Gauge.state air.old air.new }
    {
        if air.waiting() >= air.capacity() {
            return Err(Refusal::AirFull);
        }
        let mut area = [0; LONGEST];
        let n = write(self.format(), frame, &mut area)?;
        air.put(&area[..n])
    }

    /// Puts a frame with the k-th held element into the air that carries what it sends. Refused by 5 where no more than k are held, and
    /// then by 6 where the air is full.
    pub fn send<A: Air>(&mut self, k: usize, air: &mut Tight<A>) -> Result<(), Refusal>
        ensures step { Acts O.coding I.coding self.old self.new
            (tight_state A.Gauge.state air.old) (tight_state A.Gauge.state air.new) (send k) (done_reply result) }
        ensures air { Keeps A.Gauge.state air.old air.new }
    {
        let frame = self.laden_frame(k).ok_or(Refusal::NotHeld)?;
        self.put(&frame, air)
    }

    /// Puts a frame with the acknowledgement alone into the air that carries what it sends. Refused by 6 where the air is full.
    pub fn bare<A: Air>(&mut self, air: &mut Tight<A>) -> Result<(), Refusal>
        ensures step { Acts O.coding I.coding self.old self.new
            (tight_state A.Gauge.state air.old) (tight_state A.Gauge.state air.new) bare (done_reply result) }
        ensures air { Keeps A.Gauge.state air.old air.new }
    {
        self.put(&self.bare_frame(), air)
    }

    /// Takes frame k out of the air that carries what it hears, and hears it. Refused by 7 and 8 as by that air, and then by 10 to 15.
    pub fn deliver<A: Air>(&mut self, k: usize, air: &mut Tight<A>) -> Result<Hearing, Refusal>
        ensures step { ActedOn O.coding I.coding self.old self.new
            (tight_state A.Gauge.state air.old) (tight_state A.Gauge.state air.new) (deliver k) (heard_reply result) }
        ensures air { Keeps A.Gauge.state air.old air.new }
    {
        let mut area = [0; LONGEST];
        let n = air.take(k, &mut area)?;
        self.hear(&area[..n])
    }

    /// The same, but the frame stays in the air.
    pub fn repeat<A: Air>(&mut self, k: usize, air: &mut Tight<A>) -> Result<Hearing, Refusal>
        ensures step { ActedOn O.coding I.coding self.old self.new
            (tight_state A.Gauge.state air.old) (tight_state A.Gauge.state air.new) (repeat k) (heard_reply result) }
        ensures air { Keeps A.Gauge.state air.old air.new }
    {
        let mut area = [0; LONGEST];
        let n = air.repeat(k, &mut area)?;
        self.hear(&area[..n])
    }
}
