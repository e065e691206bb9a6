//! A first link: one reading goes from the mast to the hut.
//!
//! It must know nothing of frames and their bytes: a program that flies a link needs its calls alone.
#![tactic(auto)]

use element::order::Order;
use element::reading::Reading;
use link::Link;
use pool::Pool;
use protocol::{Draft, Terms};
use refusal::Refusal;
use std::alloc::AllocError;
use telling::READING;

/// The mast accepts a reading and sends it; the hut hears it and passes it on.
fn fly(link: &mut Link<Reading, Order, Pool, Pool>) -> Result<Option<Reading>, Refusal> {
    link.accept_at_mast(READING)?;
    link.send_from_mast(0)?;
    link.deliver_hut_bound(0)?;
    Ok(link.pass_at_hut())
}

fn main(rt: HostRuntime) -> anyhow::Result<()> {
    let terms = Terms {
        window: 4,
        bound: 0,
        cycle: 8,
    };
    let draft = Draft::new(terms, terms)?;
    let (to_hut, to_mast) = (Pool::new(0), Pool::new(0));
    let mut link = Link::open(rt.alloc(), draft, to_hut, to_mast).map_err(AllocError::from)?;
    let passed = fly(&mut link);
    let closed = link.close();
    println!(rt; "The hut passes on {:?}.", passed?)?;
    println!(rt; "At the end: {:?}.", closed.record)?;
    Ok(())
}
