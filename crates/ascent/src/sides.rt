//! The calls of a link that go by the side alone, for every kind of element. Places count from 0, the oldest.
use crate::Flight;
use air::Gauge;
use element::Kind;
use frame::Side;
use link::Hearing;
use refusal::Refusal;

/// What the end of a side is called.
pub(crate) fn name_of(side: Side) -> &'static str {
    match side {
        Side::Mast => "mast",
        Side::Hut => "hut",
    }
}

/// The sender sends the element at a place of those that it holds.
pub(crate) fn send<X: Kind>(
    link: &mut Flight<X>,
    sender: Side,
    place: usize,
) -> Result<(), Refusal> {
    match sender {
        Side::Mast => link.send_from_mast(place),
        Side::Hut => link.send_from_hut(place),
    }
}

/// The sender sends its acknowledgement alone.
pub(crate) fn bare<X: Kind>(link: &mut Flight<X>, sender: Side) -> Result<(), Refusal> {
    match sender {
        Side::Mast => link.bare_from_mast(),
        Side::Hut => link.bare_from_hut(),
    }
}

/// The sender's frame at a place is lost.
pub(crate) fn lose<X: Kind>(
    link: &mut Flight<X>,
    sender: Side,
    place: usize,
) -> Result<(), Refusal> {
    match sender {
        Side::Mast => link.lose_hut_bound(place),
        Side::Hut => link.lose_mast_bound(place),
    }
}

/// The sender's frame at a place is handed over.
pub(crate) fn deliver<X: Kind>(
    link: &mut Flight<X>,
    sender: Side,
    place: usize,
) -> Result<Hearing, Refusal> {
    match sender {
        Side::Mast => link.deliver_hut_bound(place),
        Side::Hut => link.deliver_mast_bound(place),
    }
}

/// The sender's frame at a place is handed over, and waits still.
pub(crate) fn repeat<X: Kind>(
    link: &mut Flight<X>,
    sender: Side,
    place: usize,
) -> Result<Hearing, Refusal> {
    match sender {
        Side::Mast => link.repeat_hut_bound(place),
        Side::Hut => link.repeat_mast_bound(place),
    }
}

/// Whether the sender's air has room for a frame.
pub(crate) fn has_room<X: Kind>(link: &Flight<X>, sender: Side) -> bool {
    let air = match sender {
        Side::Mast => link.hut_bound_air(),
        Side::Hut => link.mast_bound_air(),
    };
    air.waiting() < air.capacity()
}
