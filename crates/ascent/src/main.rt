//! A long flight, told in plain text: its draft; a reading as a frame in bytes; its link, from the opening through thousands of readings to
//! the record that it leaves; a second link beside it, which carries ozone measurements on a part of the way; and whether all of it
//! arrived. What is told is computed by the library's calls.
//!
//! It must know nothing of how the library comes to its answers, nor how elements, headlines and refusals are put into words.
#![tactic(auto)]

use element::order::Order;
use link::Link;
use pool::Pool;
use std::io;

mod balloon;
mod boards;
mod burst;
mod calls;
mod carried;
mod climb;
mod damage;
mod draft;
mod draws;
mod flight;
mod frames;
mod journey;
mod landing;
mod late;
mod opening;
mod orders;
mod ozone;
mod profile;
mod progress;
mod relay;
mod sample;
mod settling;
mod sides;
mod stream;
mod traffic;
mod turns;
mod verdict;
mod weather;

/// A link of the flight: elements of the kind X go to the hut, orders to the mast, each through the pool of a relay.
type Flight<X> = Link<X, Order, Pool, Pool>;

/// The word that a sentence needs where something is not as it ought to be.
fn not_unless(holds: bool) -> &'static str {
    if holds { "" } else { "NOT " }
}

/// The heading of a section.
fn tell_heading(rt: &impl Print, heading: &str) -> io::Result<()> {
    println!(rt; "\n== {heading} ==\n")
}

fn main(rt: HostRuntime) -> anyhow::Result<()> {
    println!(rt; "One balloon flight over two links, from the draft to the verdict")?;
    tell_heading(&rt, "The draft")?;
    let draft = draft::tell_draft(&rt)?;
    tell_heading(&rt, "One reading as a frame")?;
    sample::tell_sample(&rt)?;
    flight::tell_flight(&rt, draft)
}
