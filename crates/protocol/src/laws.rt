//! What is proved of every link: for every two kinds of element E and F, of which E goes to the hut, and every way to write their frames
//! that writes a frame alike on all cycles and reads back what it wrote, those with an E as a V and those with an F as a W. Each function
//! states its theorem in its contract.
ghost use Rattle.protocol.specs.Laws.{AlwaysCovered, AlwaysCounted, AlwaysQueued};
ghost use Rattle.protocol.specs.Laws.{LikeIdeal, SameAfterSettle, SameOnAnyCycle, SameWithAnyCodec};
ghost use Rattle.protocol.specs.Promises.{AlwaysPromises};

/// A link delivers: what was passed is a beginning of what was accepted, at most two windows behind; each element between is held or
/// placed; a settle passes exactly what is owed; no call is refused for the bytes of a frame. And the limits on its cycles are exact.
pub fn promises<E, F, V, W>()
    ensures { AlwaysPromises E F V W }
{}

/// A link on cycles that start over, its frames written and read, does what the same link does on numbers that never start over.
pub fn like_ideal<E, F, V, W>()
    ensures { LikeIdeal E F V W }
{}

/// So links that differ in no more than their cycles and in how their frames are written answer every call alike. The second link's frames
/// with an E are written as an X, those with an F as a Y.
pub fn same_on_any_cycle<E, F, V, W, X, Y>()
    ensures { SameOnAnyCycle E F V W X Y }
{}

/// A link does what it would if its frames travelled as they are, not written; also where its cycles are too short.
pub fn same_with_any_codec<E, F, V, W>()
    ensures { SameWithAnyCodec E F V W }
{}

/// Links that have accepted the same are the same after a settle, whatever became of their frames before.
pub fn same_after_settle<E, F, V, W>()
    ensures { SameAfterSettle E F V W }
{}

/// The records of a link's two ends cover what is owed.
pub fn records_cover<E, F, V, W>()
    ensures { AlwaysCovered E F V W }
{}

/// How much each stream owes can be counted from what its ends hold.
pub fn counts<E, F, V, W>()
    ensures { AlwaysCounted E F V W }
{}

/// Each stream is a first-in first-out queue of two windows.
pub fn queues<E, F, V, W>()
    ensures { AlwaysQueued E F V W }
{}
