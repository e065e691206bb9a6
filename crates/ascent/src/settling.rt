//! How a link is settled, and what each list gets.
use crate::Flight;
use crate::carried::{Carried, CarriedBy};
use crate::draft::WINDOW;
use crate::sides::name_of;
use crate::traffic::Traffic;
use element::Kind;
use element::order::Order;
use link::Owed;
use std::{fmt, io};
use telling::Told;

/// How many places a list has that is lent to settling: two windows.
const PLACES: usize = 2 * WINDOW as usize;

/// How many elements each end has still to get.
fn tell_owed<X: Kind>(rt: &impl Print, link: &Flight<X>) -> io::Result<()> {
    let Owed { mast, hut } = link.owed();
    println!(rt; "Still owed: {hut} to the hut, {mast} to the mast.")
}

/// What the list of an end got.
fn tell_list<E: Carried>(rt: &impl Print, list: &[E]) -> io::Result<()>
where
    Told<E>: fmt::Display,
{
    let receiver = name_of(E::SENDER.other());
    if list.is_empty() {
        return println!(rt; "The {receiver}'s list gets none.");
    }
    println!(rt; "The {receiver}'s list gets {}:", list.len())?;
    for element in list {
        println!(rt; "    {}", Told(*element))?;
    }
    Ok(())
}

/// Settles a link, and tells what each list got.
pub(crate) fn tell_settling<X: CarriedBy<Flight<X>>>(
    rt: &(impl Print + AllocGlobal),
    link: &mut Flight<X>,
    traffic: &mut Traffic<X>,
) -> anyhow::Result<()>
where
    Told<X>: fmt::Display,
{
    let mut hut_list = vec![in rt.alloc(); X::PLACEHOLDER; PLACES]?;
    let mut mast_list = vec![in rt.alloc(); Order::PLACEHOLDER; PLACES]?;
    tell_owed(rt, link)?;
    let settled = link.settle(&mut mast_list, &mut hut_list)?;
    hut_list.truncate(settled.hut);
    mast_list.truncate(settled.mast);
    println!(rt; "The link is settled.")?;
    tell_list::<X>(rt, &hut_list)?;
    tell_list::<Order>(rt, &mast_list)?;
    traffic.hut_bound.settle(&hut_list)?;
    traffic.mast_bound.settle(&mast_list)?;
    tell_owed(rt, link)?;
    Ok(())
}
