//! The two halves of a stream: its sender, which holds elements until they are acknowledged, and its receiver, which places them
//! in its slots until they can be passed on in sequence.
//!
//! Each reserves its memory once, when it is made, and what it then takes in is proved to find room there.
//!
//! Neither must know anything of frames and airs: they are given elements, numbers and acknowledgements, and of `frame` they have the side
//! alone.
#![tactic(auto)]

mod receiver;
mod sender;

pub use receiver::Receiver;
pub use sender::Sender;
