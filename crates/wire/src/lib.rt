//! A link's frames on the wire: bytes, for every kind of element. What is proved of every link whose frames are read
//! back as they were written therefore holds of links whose frames are bytes.
//!
//! It joins `protocol`, which knows nothing of a frame's bytes, and `frame`, which knows nothing of links. It must know nothing of the
//! code of an end or a link, nor which kinds of element there are.
#![tactic(auto)]

ghost use Rattle.wire.specs.Wires.{CountsInBytes, PromisesInBytes, Readable};

use element::Kind;
use frame::LONGEST;

/// Frames in bytes can be relied on, and so a drafted link that sends them keeps the whole promise, over any two kinds of element, X
/// hut-bound and Y mast-bound.
pub fn promises<X: Kind, Y: Kind>()
    ensures readable { Readable X.coding }
    ensures promises { PromisesInBytes X.coding Y.coding }
    ensures counts { CountsInBytes X.coding Y.coding }
{
    protocol::promises::<X, Y, [u8; LONGEST], [u8; LONGEST]>();
    protocol::counts::<X, Y, [u8; LONGEST], [u8; LONGEST]>();
}
