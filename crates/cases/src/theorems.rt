//! What is proved of every link, said of any two kinds of element: those of X go to the hut, those of Y to the mast, and frames are bytes.
ghost use Rattle.std.specs.Prelude.{List, ℕ};
ghost use Rattle.element.specs.Orders.{order_coding};
ghost use Rattle.element.specs.Ozones.{ozone_coding};
ghost use Rattle.element.specs.Readings.{reading_coding};
ghost use Rattle.element.specs.Winds.{wind_coding};
ghost use Rattle.frame.specs.declared.Frame.{Frame};
ghost use Rattle.link.specs.Links.{link_state, to_hut, to_mast};
ghost use Rattle.pool.specs.Pools.{pool_state};
ghost use Rattle.protocol.specs.Laws.{AlwaysCounted, AlwaysCovered, AlwaysQueued};
ghost use Rattle.protocol.specs.Laws.{LikeIdeal, SameAfterSettle, SameOnAnyCycle, SameWithAnyCodec};
ghost use Rattle.protocol.specs.Promises.{AlwaysPromises, Promise};
ghost use Rattle.wire.specs.Wires.{CountsInBytes, PromisesInBytes};

use element::Kind;
use element::order::Order;
use element::ozone::Ozone;
use element::reading::Reading;
use element::wind::Wind;
use frame::Frame;
use link::{Link, Owed};
use octets::LONGEST;
use pool::Pool;

/// What a frame is written in.
type Area = [u8; LONGEST];

/// Calls each theorem. That links on different cycles run alike is said of one whose frames are bytes and one whose frames travel as they
/// are.
pub(crate) fn hold<X: Kind, Y: Kind>()
    ensures in_bytes { PromisesInBytes X.coding Y.coding }
    ensures counts_in_bytes { CountsInBytes X.coding Y.coding }
    ensures promises { AlwaysPromises X Y (List ℕ) (List ℕ) }
    ensures like_ideal { LikeIdeal X Y (List ℕ) (List ℕ) }
    ensures same_on_any_cycle { SameOnAnyCycle X Y (List ℕ) (List ℕ) (Frame X) (Frame Y) }
    ensures same_with_any_codec { SameWithAnyCodec X Y (List ℕ) (List ℕ) }
    ensures same_after_settle { SameAfterSettle X Y (List ℕ) (List ℕ) }
    ensures records_cover { AlwaysCovered X Y (List ℕ) (List ℕ) }
    ensures counts { AlwaysCounted X Y (List ℕ) (List ℕ) }
    ensures queues { AlwaysQueued X Y (List ℕ) (List ℕ) }
{
    wire::promises::<X, Y>();
    protocol::promises::<X, Y, Area, Area>();
    protocol::like_ideal::<X, Y, Area, Area>();
    protocol::same_on_any_cycle::<X, Y, Area, Area, Frame<X>, Frame<Y>>();
    protocol::same_with_any_codec::<X, Y, Area, Area>();
    protocol::same_after_settle::<X, Y, Area, Area>();
    protocol::records_cover::<X, Y, Area, Area>();
    protocol::counts::<X, Y, Area, Area>();
    protocol::queues::<X, Y, Area, Area>();
}

/// The theorems with orders on their way to the mast, and readings, ozone or winds to the hut.
pub(crate) fn hold_with_orders()
    ensures with_readings { PromisesInBytes reading_coding order_coding }
    ensures with_ozone { PromisesInBytes ozone_coding order_coding }
    ensures with_winds { PromisesInBytes wind_coding order_coding }
{
    hold::<Reading, Order>();
    hold::<Ozone, Order>();
    hold::<Wind, Order>();
}

/// What a link with readings owes, which is open over two pools. Here stands the whole promise of that link.
pub(crate) fn owed_readings(link: &Link<Reading, Order, Pool, Pool>) -> Owed
    ensures promise { Promise (to_hut reading_coding pool_state link.now) (to_mast order_coding pool_state link.now)
        (link_state pool_state pool_state link.now) }
{
    link.owed()
}

/// The same with ozone.
pub(crate) fn owed_ozone(link: &Link<Ozone, Order, Pool, Pool>) -> Owed
    ensures promise { Promise (to_hut ozone_coding pool_state link.now) (to_mast order_coding pool_state link.now)
        (link_state pool_state pool_state link.now) }
{
    link.owed()
}

/// The same with winds.
pub(crate) fn owed_winds(link: &Link<Wind, Order, Pool, Pool>) -> Owed
    ensures promise { Promise (to_hut wind_coding pool_state link.now) (to_mast order_coding pool_state link.now)
        (link_state pool_state pool_state link.now) }
{
    link.owed()
}
