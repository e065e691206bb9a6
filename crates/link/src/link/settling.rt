//! Settling a link: both streams are brought to rest.
ghost use Rattle.std.specs.Prelude.{◌≡◌, ◌+◌, ◌*◌, ◌≤◌, [], IfOk, length, take, drop};
ghost use Rattle.link.specs.Ends.{end_state, facing, settings_of};
ghost use Rattle.link.specs.Links.{to_hut, to_mast};
ghost use Rattle.link.specs.Courses.{UndergoBoth, Undergoes, UndergoesAlone, Undergone};
ghost use Rattle.link.specs.Settling.{PaysInFull, SettlesAs, Untouched, settle_answer};
ghost use Rattle.protocol.specs.Histories.{all_passed, all_sent, emptied, flushed, reported, settle_refusal, settled};
ghost use Rattle.protocol.specs.Promises.{opened};
ghost use Rattle.refusal.specs.Refusals.{unless};

use crate::link::Settled;
use crate::{End, Link};
use air::{Air, Gauge};
use element::Kind;
use refusal::Refusal;
use tight::Tight;

/// Delivers the oldest frame of an air until none waits.
fn empty<O: Kind, I: Kind, A: Air>(to: &mut End<O, I>, air: &mut Tight<A>)
    ensures { Undergoes I.coding O.coding A.Gauge.state emptied to.old to.new air.old air.new }
{
    for _ in 0..air.waiting() {
        let _ = to.deliver(0, air);
    }
}

/// Passes until there is none, into a list from place `at` on, and answers the place behind the last.
#[tactic(auto, using(protocol::proofs::Slots::free_le))]
fn pass_all<O: Kind, I: Kind>(from: &mut End<O, I>, list: &mut [I], at: usize) -> usize
    requires { at + length (end_state from.old).receiver.slots ≤ length list.old }
    ensures run { UndergoesAlone I.coding O.coding all_passed from.old from.new (drop at (take result list.new)) }
    ensures count { (at ≤ result) × (result ≤ at + length (end_state from.old).receiver.slots) }
    ensures before { take at list.new ≡ take at list.old }
    ensures behind { drop result list.new ≡ drop result list.old }
{
    let mut next = at;
    while let Some(element) = from.pass() {
        list[next] = element;
        next += 1;
    }
    next
}

/// Sends each held element in turn, and delivers it.
fn send_all<O: Kind, I: Kind, A: Air>(from: &mut End<O, I>, to: &mut End<I, O>, air: &mut Tight<A>)
    requires { settings_of to.old ≡ facing (settings_of from.old) }
    ensures { UndergoBoth O.coding I.coding A.Gauge.state all_sent from.old from.new to.old to.new air.old air.new [] }
{
    for k in 0..from.held() {
        let _ = from.send(k, air);
        let _ = to.deliver(0, air);
    }
}

/// Sends and delivers what is held, and passes it.
fn flush<O: Kind, I: Kind, A: Air>(
    from: &mut End<O, I>,
    to: &mut End<I, O>,
    air: &mut Tight<A>,
    list: &mut [O],
    at: usize,
) -> usize
    requires faces { settings_of to.old ≡ facing (settings_of from.old) }
    requires room { at + length (end_state to.old).receiver.slots ≤ length list.old }
    ensures run { UndergoBoth O.coding I.coding A.Gauge.state flushed from.old from.new to.old to.new air.old air.new
        (drop at (take result list.new)) }
    ensures count { (at ≤ result) × (result ≤ at + length (end_state to.old).receiver.slots) }
    ensures before { take at list.new ≡ take at list.old }
    ensures behind { drop result list.new ≡ drop result list.old }
{
    send_all(from, to, air);
    pass_all(to, list, at)
}

/// Sends a bare frame, and delivers it.
fn report<O: Kind, I: Kind, A: Air>(from: &mut End<O, I>, to: &mut End<I, O>, air: &mut Tight<A>)
    requires { settings_of to.old ≡ facing (settings_of from.old) }
    ensures { UndergoBoth O.coding I.coding A.Gauge.state reported from.old from.new to.old to.new air.old air.new [] }
{
    let _ = from.bare(air);
    let _ = to.deliver(0, air);
}

impl<X: Kind, Y: Kind, A: Air, B: Air> Link<X, Y, A, B> {
    /// Refuses lists that are too short (16), and then airs without room for a frame (18).
    fn check_settle(&self, mast_places: usize, hut_places: usize) -> Result<(), Refusal>
        ensures { let c = to_hut X.coding A.Gauge.state self.now in let d = to_mast Y.coding B.Gauge.state self.now in
            result ≡ unless tt (settle_refusal (opened c d) (opened d c) mast_places hut_places) }
    {
        if mast_places < 2 * self.mast.slots() || hut_places < 2 * self.hut.slots() {
            return Err(Refusal::ListTooShort);
        }
        if self.hut_bound_air.capacity() == 0 || self.mast_bound_air.capacity() == 0 {
            return Err(Refusal::NoRoomInAir);
        }
        Ok(())
    }

    /// Brings both streams to rest: delivers what waits, passes what has come, and sends and passes what is held; then each end reports
    /// what it has heard.
    #[tactic(auto, using(crate::proofs::Lists::behind_later))]
    fn settle_both(&mut self, mast_list: &mut [Y], hut_list: &mut [X]) -> Settled
        requires mast { 2 * self.old.draft.mast_bound.window ≤ length mast_list.old }
        requires hut { 2 * self.old.draft.hut_bound.window ≤ length hut_list.old }
        ensures run { Undergone X.coding Y.coding A.Gauge.state B.Gauge.state settled self.old self.new
            (take result.hut hut_list.new) (take result.mast mast_list.new) }
        ensures count { (result.mast ≤ length mast_list.old) × (result.hut ≤ length hut_list.old) }
        ensures mast { drop result.mast mast_list.new ≡ drop result.mast mast_list.old }
        ensures hut { drop result.hut hut_list.new ≡ drop result.hut hut_list.old }
    {
        empty(&mut self.hut, &mut self.hut_bound_air);
        empty(&mut self.mast, &mut self.mast_bound_air);
        let mast = pass_all(&mut self.mast, mast_list, 0);
        let hut = pass_all(&mut self.hut, hut_list, 0);
        let hut = flush(
            &mut self.mast,
            &mut self.hut,
            &mut self.hut_bound_air,
            hut_list,
            hut,
        );
        let mast = flush(
            &mut self.hut,
            &mut self.mast,
            &mut self.mast_bound_air,
            mast_list,
            mast,
        );
        report(&mut self.mast, &mut self.hut, &mut self.hut_bound_air);
        report(&mut self.hut, &mut self.mast, &mut self.mast_bound_air);
        Settled { mast, hut }
    }

    /// Settles the link: each list gets, from its front, all that its end has still to get, and the answer is how many those are. Later
    /// places are untouched. Refused by 16 where a list has fewer places than two windows of the stream that ends there, and then by 18
    /// where an air has no room for a frame.
    #[tactic(auto, using(crate::proofs::Settles::no_cause, crate::proofs::Settles::settled_so, crate::proofs::Settles::paid))]
    pub fn settle(&mut self, mast_list: &mut [Y], hut_list: &mut [X]) -> Result<Settled, Refusal>
        ensures settles { SettlesAs X.coding Y.coding A.Gauge.state B.Gauge.state self.old self.new
            (length mast_list.old) (length hut_list.old) (settle_answer result mast_list.new hut_list.new) }
        ensures fits { IfOk result (λ n. (n.mast ≤ length mast_list.old) × (n.hut ≤ length hut_list.old)) }
        ensures untouched { Untouched result mast_list.old mast_list.new hut_list.old hut_list.new }
        ensures pays { IfOk result
            (λ n. PaysInFull X.coding Y.coding A.Gauge.state B.Gauge.state self.old self.new n mast_list.new hut_list.new) }
    {
        // every such link keeps its promise, from which it follows what its ends are given
        wire::promises::<X, Y>();
        self.check_settle(mast_list.len(), hut_list.len())?;
        Ok(self.settle_both(mast_list, hut_list))
    }
}
