//! The draft: terms of both streams that are within the limits.
ghost use Rattle.std.specs.Prelude.{◌≡◌, ◌↔◌, IfOk, IsOk};
ghost use Rattle.std.specs.Result.{result_err};
ghost use Rattle.protocol.specs.Drafts.{Drafted, cycle_fits, draft_refusal, format_of, refused_unless, sent_by, window_fits};
ghost use Rattle.refusal.specs.Refusals.{unless};

use crate::Cycle;
use crate::terms::{Terms, least_cycle};
use frame::{Cycles, Format, Side};
use refusal::Refusal;

/// The most elements that a window may hold.
const MAX_WINDOW: u32 = 32;

/// The highest bound.
const MAX_BOUND: u32 = 255;

/// The longest cycle.
const MAX_CYCLE: u32 = 16_384;

/// The terms of both streams, on which both ends agree. A draft that exists is within the limits. It is moved and not copied, since one
/// link is opened from it.
#[derive(Drop, PartialEq, Eq, Debug)]
pub struct Draft {
    hut_bound: Terms,
    mast_bound: Terms,
    ghost within: { Drafted hut_bound mast_bound },
}

/// Refuses, unless a test holds.
fn demand(holds: bool, refusal: Refusal) -> Result<(), Refusal>
    ensures { result ≡ unless tt (refused_unless holds refusal) }
{
    if holds { Ok(()) } else { Err(refusal) }
}

impl Terms {
    /// Whether the window is 1 to 32.
    fn window_fits(&self) -> bool
        ensures { result ≡ window_fits self.now }
    {
        (1..=MAX_WINDOW).contains(&self.window)
    }

    /// Whether the cycle is at least the least one, where the other stream has the bound `other_bound`, and at most 16,384.
    fn cycle_fits(&self, other_bound: u32) -> bool
        ensures { result ≡ cycle_fits self.now other_bound }
    {
        u64::from(self.cycle) >= least_cycle(self.window, self.bound, other_bound)
            && self.cycle <= MAX_CYCLE
    }
}

impl Draft {
    /// Drafts both streams. Refused by the smallest number that applies to either: 1 for a window outside 1 to 32, 2 for a bound
    /// above 255, 3 for a cycle that is shorter than the least one or longer than 16,384.
    pub fn new(hut_bound: Terms, mast_bound: Terms) -> Result<Draft, Refusal>
        ensures terms { IfOk result (λ draft. (draft.hut_bound ≡ hut_bound) × (draft.mast_bound ≡ mast_bound)) }
        ensures refusal { result_err result ≡ draft_refusal hut_bound mast_bound }
        ensures exact { IsOk result ↔ Drafted hut_bound mast_bound }
    {
        demand(
            hut_bound.window_fits() && mast_bound.window_fits(),
            Refusal::WindowOutOfLimits,
        )?;
        demand(
            hut_bound.bound <= MAX_BOUND && mast_bound.bound <= MAX_BOUND,
            Refusal::BoundOutOfLimits,
        )?;
        demand(
            hut_bound.cycle_fits(mast_bound.bound) && mast_bound.cycle_fits(hut_bound.bound),
            Refusal::CycleOutOfLimits,
        )?;
        Ok(Draft {
            hut_bound,
            mast_bound,
        })
    }

    /// The terms of the stream from mast to hut.
    pub fn hut_bound(&self) -> Terms
        ensures { result ≡ self.now.hut_bound }
    {
        self.hut_bound
    }

    /// The terms of the stream from hut to mast.
    pub fn mast_bound(&self) -> Terms
        ensures { result ≡ self.now.mast_bound }
    {
        self.mast_bound
    }

    /// The terms of the stream that a side sends.
    pub fn sent_by(&self, side: Side) -> Terms
        ensures { result ≡ sent_by side self.now.hut_bound self.now.mast_bound }
    {
        match side {
            Side::Mast => self.hut_bound,
            Side::Hut => self.mast_bound,
        }
    }

    /// The numbers of the stream that a side sends.
    pub fn cycle(&self, sender: Side) -> Cycle
        ensures { result.length ≡ (sent_by sender self.now.hut_bound self.now.mast_bound).cycle }
    {
        Cycle::new(self.sent_by(sender).cycle as u16).unwrap()
    }

    /// What the frames that a side sends are held against, whether they are written or read.
    pub fn format(&self, sender: Side) -> Format
        ensures { result ≡ format_of sender self.now.hut_bound self.now.mast_bound }
    {
        Format {
            sender,
            cycles: Cycles {
                ack: self.sent_by(sender.other()).cycle as u16,
                number: self.sent_by(sender).cycle as u16,
            },
        }
    }
}
