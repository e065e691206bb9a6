//! The worked cases of links, each flown over pools, over shelves, and over tight airs, with elements of any kind on their way to the hut.
use crate::drafts::terms;
use crate::kinds::Worked;
use crate::{Flown, everywhere};
use air::{Air, Gauge};
use element::order::Order;
use link::{EndRecord, Hearing, Link, Owed, Record, Settled};
use pool::Pool;
use protocol::{Draft, Placement};
use refusal::Refusal;
use shelf::{CELL, Shelf};
use std::alloc::{AllocError, Global};
use tight::Tight;
use worked::BLANK;

/// A case that takes a link.
#[derive(Clone, Copy)]
pub(crate) enum Case {
    /// G: a frame is repeated, and delivered once more after its element was passed.
    LateFrame,
    /// H: an acknowledgement waits until a later one has passed it.
    LateAcknowledgement,
    /// M: two elements are accepted, one of them is sent and lost, and the link is settled.
    Settling,
}

/// What an end makes of a frame that releases so many of its elements and carries one.
fn heard(released: usize, placement: Placement) -> Hearing {
    Hearing {
        released,
        placement,
    }
}

/// What an end makes of a frame that carries the acknowledgement alone.
fn heard_bare(released: usize) -> Hearing {
    heard(released, Placement::Bare)
}

/// G: on a cycle of 4 the frame that is delivered late is outside; on a cycle of 3 it would fill slot 1.
fn late_frame<X: Worked, A: Air, B: Air>(link: &mut Link<X, Order, A, B>) -> Result<bool, Refusal> {
    link.accept_at_mast(X::FIRST)?;
    link.accept_at_mast(X::SECOND)?;
    link.send_from_mast(1)?;
    let second = link.deliver_hut_bound(0)?;
    link.send_from_mast(0)?;
    let first = link.repeat_hut_bound(0)?;
    let passed = (link.pass_at_hut(), link.pass_at_hut());
    let late = link.deliver_hut_bound(0)?;
    Ok(
        second == heard(0, Placement::Slot(1))
            && first == heard(0, Placement::Slot(0))
            && passed == (Some(X::FIRST), Some(X::SECOND))
            && late == heard(0, Placement::Outside)
            && link.pass_at_hut() == None,
    )
}

/// H: on a cycle of 3 the acknowledgement that is delivered late releases nothing; on a cycle of 2 it would release the second
/// element, which was never sent.
fn late_acknowledgement<X: Worked, A: Air, B: Air>(
    link: &mut Link<X, Order, A, B>,
) -> Result<bool, Refusal> {
    link.bare_from_hut()?;
    link.accept_at_mast(X::FIRST)?;
    link.send_from_mast(0)?;
    let first = link.deliver_hut_bound(0)?;
    let passed = link.pass_at_hut();
    link.bare_from_hut()?;
    let fresh = link.deliver_mast_bound(1)?;
    link.accept_at_mast(X::SECOND)?;
    let late = link.deliver_mast_bound(0)?;
    Ok(
        first == heard(0, Placement::Slot(0))
            && passed == Some(X::FIRST)
            && fresh == heard_bare(1)
            && late == heard_bare(0),
    )
}

/// M: both elements are owed, and settling gives them to the hut's list in sequence; all other places of both lists stay as they were.
fn settling<X: Worked, A: Air, B: Air>(
    link: &mut Link<X, Order, A, B>,
    hut_list: &mut [X],
) -> Result<bool, Refusal> {
    link.accept_at_mast(X::FIRST)?;
    link.accept_at_mast(X::SECOND)?;
    link.send_from_mast(0)?;
    link.lose_hut_bound(0)?;
    let owed = link.owed();
    let mut mast_list = [Order::NONE; 4];
    let settled = link.settle(&mut mast_list, hut_list)?;
    Ok(
        owed == Owed { mast: 0, hut: 2 }
            && settled == Settled { mast: 0, hut: 2 }
            && mast_list == [Order::NONE; 4]
            && hut_list.first() == Some(&X::FIRST)
            && hut_list.get(1) == Some(&X::SECOND)
            && hut_list.iter().skip(2).all(|element| *element == X::NONE)
            && link.owed() == Owed { mast: 0, hut: 0 },
    )
}

impl Case {
    /// The draft by which its link is opened, with the least cycles.
    fn draft(self) -> Result<Draft, Refusal> {
        match self {
            Case::LateFrame | Case::Settling => Draft::new(terms(2, 0, 4), terms(2, 0, 4)),
            Case::LateAcknowledgement => Draft::new(terms(1, 0, 3), terms(1, 1, 3)),
        }
    }

    /// Its calls, and whether each answers as it should. The list is the hut's where the link is settled.
    fn fly<X: Worked, A: Air, B: Air>(
        self,
        link: &mut Link<X, Order, A, B>,
        hut_list: &mut [X],
    ) -> Result<bool, Refusal> {
        match self {
            Case::LateFrame => late_frame(link),
            Case::LateAcknowledgement => late_acknowledgement(link),
            Case::Settling => settling(link, hut_list),
        }
    }

    /// The record of its link: what the mast has not heard that the hut has received, it holds still.
    fn record(self) -> Record {
        let held = match self {
            Case::LateFrame => 2,
            Case::LateAcknowledgement => 1,
            Case::Settling => 0,
        };
        Record {
            mast: EndRecord { held, placed: 0 },
            hut: EndRecord { held: 0, placed: 0 },
        }
    }
}

/// Whether a case holds on a link that is drafted so, over two airs.
fn holds_by<X: Worked, A: Air + Drop, B: Air + Drop>(
    alloc: Global,
    case: Case,
    draft: Draft,
    hut_bound_air: A,
    mast_bound_air: B,
) -> Result<bool, AllocError> {
    let mut hut_list = vec![in alloc; X::NONE; 5]?;
    let mut link = Link::open(alloc, draft, hut_bound_air, mast_bound_air)?;
    let held = case.fly(&mut link, &mut hut_list);
    let closed = link.close();
    Ok(
        held == Ok(true)
            && closed.record == case.record()
            && closed.hut_bound_air.waiting() == 0
            && closed.mast_bound_air.waiting() == 0,
    )
}

/// Whether a case holds on a link over two airs.
fn holds<X: Worked, A: Air + Drop, B: Air + Drop>(
    alloc: Global,
    case: Case,
    hut_bound_air: A,
    mast_bound_air: B,
) -> Result<bool, AllocError> {
    match case.draft() {
        Ok(draft) => holds_by::<X, A, B>(alloc, case, draft, hut_bound_air, mast_bound_air),
        Err(_) => Ok(false),
    }
}

/// The sorts of air on which a case is flown.
pub(crate) const AIRS: [&'static str; 4] = [
    "pools",
    "shelves",
    "tight airs over pools",
    "tight airs over shelves",
];

/// A case on links over two airs of each of these sorts. The tight ones have the bound 1 from the one given.
fn flown<X: Worked>(alloc: Global, case: Case) -> Result<Flown, AllocError> {
    let mut hut_bound = [BLANK; 3 * CELL];
    let mut mast_bound = [BLANK; 3 * CELL];
    let on_shelves = holds::<X, _, _>(
        alloc,
        case,
        Shelf::new(&mut hut_bound, 1),
        Shelf::new(&mut mast_bound, 1),
    )?;
    let on_tight_shelves = holds::<X, _, _>(
        alloc,
        case,
        Tight::new(Shelf::new(&mut hut_bound, 9), 1),
        Tight::new(Shelf::new(&mut mast_bound, 9), 1),
    )?;
    let on_pools = holds::<X, _, _>(alloc, case, Pool::new(1), Pool::new(1))?;
    let on_tight_pools = holds::<X, _, _>(
        alloc,
        case,
        Tight::new(Pool::new(9), 1),
        Tight::new(Pool::new(9), 1),
    )?;
    Ok([on_pools, on_shelves, on_tight_pools, on_tight_shelves])
}

/// On a link over two pools two elements are accepted. They are owed then, by a call that asks a link of just this type.
fn owes_two<X: Worked, F: Fn(&Link<X, Order, Pool, Pool>) -> Owed>(
    alloc: Global,
    owed: F,
) -> Result<bool, AllocError>
    requires { F.IsAlwaysCallable owed }
{
    let Ok(draft) = Case::Settling.draft() else {
        return Ok(false);
    };
    let mut link = Link::<X, Order, _, _>::open(alloc, draft, Pool::new(1), Pool::new(1))?;
    let first = link.accept_at_mast(X::FIRST);
    let second = link.accept_at_mast(X::SECOND);
    let owed = owed(&link);
    link.close();
    Ok(first == Ok(()) && second == Ok(()) && owed == Owed { mast: 0, hut: 2 })
}

/// Whether each case held on each sort of air, and whether a link over two pools owed what it should.
#[derive(Clone, Copy)]
pub(crate) struct Held {
    pub(crate) late_frame: Flown,
    pub(crate) late_acknowledgement: Flown,
    pub(crate) settling: Flown,
    pub(crate) owed: bool,
}

impl Held {
    /// M: the link settled wherever it was flown, and owed what it should.
    pub(crate) fn settles(&self) -> bool {
        everywhere(&self.settling) && self.owed
    }
}

/// Every case on each sort of air, with elements of the kind X on their way to the hut, and the call that asks such a link what it owes.
pub(crate) fn flights<X: Worked, F: Fn(&Link<X, Order, Pool, Pool>) -> Owed>(
    alloc: Global,
    owed: F,
) -> Result<Held, AllocError>
    requires { F.IsAlwaysCallable owed }
{
    Ok(Held {
        late_frame: flown::<X>(alloc, Case::LateFrame)?,
        late_acknowledgement: flown::<X>(alloc, Case::LateAcknowledgement)?,
        settling: flown::<X>(alloc, Case::Settling)?,
        owed: owes_two::<X, F>(alloc, owed)?,
    })
}
