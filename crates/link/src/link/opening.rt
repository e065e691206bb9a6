//! Opening a link, what can be read off it, and closing it.
ghost use Rattle.std.specs.Prelude.{◌≡◌, IfErr, IfOk, alloc_error};
ghost use Rattle.frame.specs.declared.Side.TheVariants.{Mast, Hut};
ghost use Rattle.link.specs.Ends.{drafted, end_state, new_end, settings_of};
ghost use Rattle.link.specs.Lives.{IsOwed, Opened, still_owed, record_of};
ghost use Rattle.link.specs.Links.{link_state, to_hut, to_mast};
ghost use Rattle.protocol.specs.Promises.{Promise};

use crate::link::{Closed, NotOpened, Owed, Record};
use crate::{End, Link};
use air::{Air, Gauge};
use element::Kind;
use frame::Side;
use protocol::Draft;
use std::alloc::{AllocError, Global};
use tight::Tight;

/// Both ends of a link, by its draft.
fn ends<X: Kind, Y: Kind>(
    alloc: Global,
    draft: &Draft,
) -> Result<(End<X, Y>, End<Y, X>), AllocError>
    ensures mast { IfOk result (λ es. settings_of es.0 ≡ drafted Mast draft.now.hut_bound draft.now.mast_bound) }
    ensures hut { IfOk result (λ es. settings_of es.1 ≡ drafted Hut draft.now.hut_bound draft.now.mast_bound) }
    ensures new { IfOk result (λ es. (end_state es.0 ≡ new_end (settings_of es.0)) × (end_state es.1 ≡ new_end (settings_of es.1))) }
{
    let mast = End::new(alloc, draft, Side::Mast)?;
    let hut = End::new(alloc, draft, Side::Hut)?;
    Ok((mast, hut))
}

/// Where the draft and the airs are not needed any more, it was want of memory.
impl<A: Drop, B: Drop> From<NotOpened<A, B>> for AllocError {
    ghost from_gives = { λ _ error. error ≡ alloc_error };

    fn from(_: NotOpened<A, B>) -> AllocError {
        AllocError
    }
}

impl<X: Kind, Y: Kind, A: Air, B: Air> Link<X, Y, A, B> {
    /// Opens a link by a draft, over two airs. Every frame that waits in them is lost, and each is held to the drafted bound, or to its own
    /// if that is smaller. Both ends start at number 0 with nothing held or placed. It fails for want of memory alone, and then hands
    /// back the draft and both airs as they were.
    pub fn open(
        alloc: Global,
        draft: Draft,
        hut_bound_air: A,
        mast_bound_air: B,
    ) -> Result<Link<X, Y, A, B>, NotOpened<A, B>>
        ensures opened { IfOk result
            (λ link. Opened X.coding Y.coding A.Gauge.state B.Gauge.state
            draft.hut_bound draft.mast_bound hut_bound_air mast_bound_air link) }
        ensures not_opened { IfErr result
            (λ back. back ≡ record { draft = draft; hut_bound_air = hut_bound_air; mast_bound_air = mast_bound_air }) }
    {
        match ends(alloc, &draft) {
            Ok((mast, hut)) => {
                let bound_to_hut = draft.hut_bound().bound as u8;
                let bound_to_mast = draft.mast_bound().bound as u8;
                Ok(Link {
                    draft,
                    mast,
                    hut,
                    hut_bound_air: Tight::new(hut_bound_air, bound_to_hut),
                    mast_bound_air: Tight::new(mast_bound_air, bound_to_mast),
                })
            }
            Err(_) => Err(NotOpened {
                draft,
                hut_bound_air,
                mast_bound_air,
            }),
        }
    }

    /// The draft by which it was opened.
    pub fn draft(&self) -> &Draft
        ensures { result.now ≡ self.now.draft }
    {
        &self.draft
    }

    /// The air from mast to hut.
    pub fn hut_bound_air(&self) -> &Tight<A>
        ensures { result.now ≡ self.now.hut_bound_air }
    {
        &self.hut_bound_air
    }

    /// The air from hut to mast.
    pub fn mast_bound_air(&self) -> &Tight<B>
        ensures { result.now ≡ self.now.mast_bound_air }
    {
        &self.mast_bound_air
    }

    /// How many elements each end has still to get. Here stands the whole promise of the link: whatever calls led to it, each stream
    /// delivers, nothing was refused for the bytes of a frame, settling gives each end exactly what it is owed, and the limits on the
    /// cycles are exact.
    pub fn owed(&self) -> Owed
        ensures count { result ≡ still_owed A.Gauge.state B.Gauge.state self.now }
        ensures owed { IsOwed X.coding Y.coding A.Gauge.state B.Gauge.state self.now result }
        ensures promise { Promise (to_hut X.coding A.Gauge.state self.now) (to_mast Y.coding B.Gauge.state self.now)
            (link_state A.Gauge.state B.Gauge.state self.now) }
    {
        // every such link keeps its promise, and what it owes can be counted
        wire::promises::<X, Y>();
        Owed {
            mast: self.mast.awaits(&self.hut),
            hut: self.hut.awaits(&self.mast),
        }
    }

    /// Closes the link, and gives its record and the airs back.
    pub fn close(self) -> Closed<A, B>
        ensures mast { result.record.mast ≡ record_of self.mast }
        ensures hut { result.record.hut ≡ record_of self.hut }
        ensures hut_bound { result.hut_bound_air ≡ self.hut_bound_air.below }
        ensures mast_bound { result.mast_bound_air ≡ self.mast_bound_air.below }
    {
        let Link {
            draft: _draft,
            mast,
            hut,
            hut_bound_air,
            mast_bound_air,
        } = self;
        Closed {
            record: Record {
                mast: mast.record(),
                hut: hut.record(),
            },
            hut_bound_air: hut_bound_air.into_inner(),
            mast_bound_air: mast_bound_air.into_inner(),
        }
    }
}
