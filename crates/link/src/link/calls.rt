//! The calls of an open link. Each is the machine's step.
ghost use Rattle.link.specs.Links.{HutActs, MastActs};
ghost use Rattle.link.specs.Replies.{done_reply, heard_reply};
ghost use Rattle.protocol.specs.Machine.Act.{accept, bare, deliver, lose, pass, repeat, send};
ghost use Rattle.protocol.specs.Machine.Reply.{passed_on};

use crate::{Hearing, Link};
use air::Air;
use element::Kind;
use refusal::Refusal;

impl<X: Kind, Y: Kind, A: Air, B: Air> Link<X, Y, A, B> {
    /// The mast accepts an element, behind those that it holds. Refused by 4 where as many are held as its window is wide, and then by
    /// 17 where a field is out of range.
    pub fn accept_at_mast(&mut self, element: X) -> Result<(), Refusal>
        ensures { MastActs X.coding Y.coding A.Gauge.state B.Gauge.state self.old self.new (accept element) (done_reply result) }
    {
        self.mast.accept(element)
    }

    /// The mast sends its k-th held element. Refused by 5 where it holds no more than k, and then by 6 where the air to the hut is full.
    pub fn send_from_mast(&mut self, k: usize) -> Result<(), Refusal>
        ensures { MastActs X.coding Y.coding A.Gauge.state B.Gauge.state self.old self.new (send k) (done_reply result) }
    {
        self.mast.send(k, &mut self.hut_bound_air)
    }

    /// The mast sends a frame with the acknowledgement alone. Refused by 6 where the air to the hut is full.
    pub fn bare_from_mast(&mut self) -> Result<(), Refusal>
        ensures { MastActs X.coding Y.coding A.Gauge.state B.Gauge.state self.old self.new bare (done_reply result) }
    {
        self.mast.bare(&mut self.hut_bound_air)
    }

    /// The air to the hut loses frame k. Refused by 7 where no frame waits there.
    #[tactic(auto, using(crate::proofs::Turns::hut_bound_loses))]
    pub fn lose_hut_bound(&mut self, k: usize) -> Result<(), Refusal>
        ensures { MastActs X.coding Y.coding A.Gauge.state B.Gauge.state self.old self.new (lose k) (done_reply result) }
    {
        self.hut_bound_air.lose(k)
    }

    /// The air to the hut hands over frame k, and the hut hears it. Refused by 7 where no frame waits there, and then by 8 where an older
    /// one may not be overtaken again.
    pub fn deliver_hut_bound(&mut self, k: usize) -> Result<Hearing, Refusal>
        ensures { MastActs X.coding Y.coding A.Gauge.state B.Gauge.state self.old self.new (deliver k) (heard_reply result) }
    {
        self.hut.deliver(k, &mut self.hut_bound_air)
    }

    /// The same, but the frame stays in the air.
    pub fn repeat_hut_bound(&mut self, k: usize) -> Result<Hearing, Refusal>
        ensures { MastActs X.coding Y.coding A.Gauge.state B.Gauge.state self.old self.new (repeat k) (heard_reply result) }
    {
        self.hut.repeat(k, &mut self.hut_bound_air)
    }

    /// The mast passes on the next element of those that the hut has accepted, if it has come.
    pub fn pass_at_mast(&mut self) -> Option<Y>
        ensures { MastActs X.coding Y.coding A.Gauge.state B.Gauge.state self.old self.new pass (passed_on result) }
    {
        self.mast.pass()
    }

    /// The hut accepts an element, behind those that it holds. Refused by 4 where as many are held as its window is wide, and then by 17
    /// where a field is out of range.
    pub fn accept_at_hut(&mut self, element: Y) -> Result<(), Refusal>
        ensures { HutActs X.coding Y.coding A.Gauge.state B.Gauge.state self.old self.new (accept element) (done_reply result) }
    {
        self.hut.accept(element)
    }

    /// The hut sends its k-th held element. Refused by 5 where it holds no more than k, and then by 6 where the air to the mast is full.
    pub fn send_from_hut(&mut self, k: usize) -> Result<(), Refusal>
        ensures { HutActs X.coding Y.coding A.Gauge.state B.Gauge.state self.old self.new (send k) (done_reply result) }
    {
        self.hut.send(k, &mut self.mast_bound_air)
    }

    /// The hut sends a frame with the acknowledgement alone. Refused by 6 where the air to the mast is full.
    pub fn bare_from_hut(&mut self) -> Result<(), Refusal>
        ensures { HutActs X.coding Y.coding A.Gauge.state B.Gauge.state self.old self.new bare (done_reply result) }
    {
        self.hut.bare(&mut self.mast_bound_air)
    }

    /// The air to the mast loses frame k. Refused by 7 where no frame waits there.
    #[tactic(auto, using(crate::proofs::Turns::mast_bound_loses))]
    pub fn lose_mast_bound(&mut self, k: usize) -> Result<(), Refusal>
        ensures { HutActs X.coding Y.coding A.Gauge.state B.Gauge.state self.old self.new (lose k) (done_reply result) }
    {
        self.mast_bound_air.lose(k)
    }

    /// The air to the mast hands over frame k, and the mast hears it. Refused by 7 where no frame waits there, and then by 8 where an older
    /// one may not be overtaken again.
    pub fn deliver_mast_bound(&mut self, k: usize) -> Result<Hearing, Refusal>
        ensures { HutActs X.coding Y.coding A.Gauge.state B.Gauge.state self.old self.new (deliver k) (heard_reply result) }
    {
        self.mast.deliver(k, &mut self.mast_bound_air)
    }

    /// The same, but the frame stays in the air.
    pub fn repeat_mast_bound(&mut self, k: usize) -> Result<Hearing, Refusal>
        ensures { HutActs X.coding Y.coding A.Gauge.state B.Gauge.state self.old self.new (repeat k) (heard_reply result) }
    {
        self.mast.repeat(k, &mut self.mast_bound_air)
    }

    /// The hut passes on the next element of those that the mast has accepted, if it has come.
    pub fn pass_at_hut(&mut self) -> Option<X>
        ensures { HutActs X.coding Y.coding A.Gauge.state B.Gauge.state self.old self.new pass (passed_on result) }
    {
        self.hut.pass()
    }
}
