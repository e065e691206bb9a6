//! Flies the worked cases through the library's calls, and prints a line for each: its letter, a space, and `holds` or `off`. Behind them
//! stand a line for the limits of windows and bounds, one for the example of RFC 1071, one for each sort of air on which G, H, L and M are
//! flown, with readings on their way to the hut, one each for G, H and M with ozone and with winds in their place, one each for a frame
//! with ozone and for one with a wind, one for a board of each kind, and the letters of the cases that are shown of the definitions, too.
//! What is proved of every link is called at these kinds, and a link of each is asked what it owes, under a contract that says the whole
//! promise of just that link.
//!
//! It must know nothing of how the library comes to its answers: it compares them with what was worked out before.
#![tactic(auto)]

use element::order::Order;
use element::ozone::Ozone;
use element::reading::Reading;
use element::wind::Wind;
use links::Held;
use std::io;
use worked::Verdict;

mod airs;
mod boards;
mod drafts;
mod frames;
mod kinds;
mod links;
mod numbers;
mod refusals;
mod theorems;

/// Whether a case held on each of four sorts of air.
type Flown = [bool; 4];

/// Whether a case held wherever it was flown.
fn everywhere(flown: &Flown) -> bool {
    flown.iter().all(|held| *held)
}

/// Prints a line for each case: its name, and whether it held.
fn show(rt: &impl Print, cases: &[(&'static str, bool)]) -> io::Result<()> {
    for (name, held) in cases {
        println!(rt; "{name} {}", Verdict::from(*held))?;
    }
    Ok(())
}

/// Prints a line for each sort of air on which a case was flown.
fn show_airs(
    rt: &impl Print,
    letter: &str,
    airs: [&'static str; 4],
    flown: Flown,
) -> io::Result<()> {
    for (air, held) in airs.into_iter().zip(flown) {
        println!(rt; "{letter} on {air}: {}", Verdict::from(held))?;
    }
    Ok(())
}

/// Prints a line for each case that was flown with ozone, and with winds, on their way to the hut.
fn show_kinds(rt: &impl Print, ozone: Held, winds: Held) -> io::Result<()> {
    let cases = [
        ("G with ozone:", everywhere(&ozone.late_frame)),
        ("G with winds:", everywhere(&winds.late_frame)),
        ("H with ozone:", everywhere(&ozone.late_acknowledgement)),
        ("H with winds:", everywhere(&winds.late_acknowledgement)),
        ("M with ozone:", ozone.settles()),
        ("M with winds:", winds.settles()),
    ];
    show(rt, &cases)
}

/// Prints a line for a frame with ozone and one for a frame with a wind.
fn show_frames(rt: &impl Print) -> io::Result<()> {
    let cases = [
        (
            "frame with ozone:",
            frames::ozone_frame() && frames::coldest_cell(),
        ),
        ("frame with a wind:", frames::wind_frame()),
    ];
    show(rt, &cases)
}

/// Prints a line for a board of each kind.
fn show_boards(rt: &impl Print) -> io::Result<()> {
    let cases = [
        ("board of readings:", boards::two_posted::<Reading>()),
        ("board of ozone:", boards::two_posted::<Ozone>()),
        ("board of winds:", boards::two_posted::<Wind>()),
        ("board of orders:", boards::two_posted::<Order>()),
    ];
    show(rt, &cases)
}

fn main(rt: HostRuntime) -> io::Result<()> {
    let slots = numbers::slots(rt.alloc())?;
    let releases = numbers::releases(rt.alloc())?;
    let readings = links::flights::<Reading, _>(rt.alloc(), theorems::owed_readings)?;
    let ozone = links::flights::<Ozone, _>(rt.alloc(), theorems::owed_ozone)?;
    let winds = links::flights::<Wind, _>(rt.alloc(), theorems::owed_winds)?;
    let overtaking = airs::overtaking();
    let cases = [
        ("A", drafts::cycles_of_8()),
        ("B", drafts::cycles_of_11_and_17()),
        ("C", drafts::longest_cycles()),
        ("D", drafts::shortest_cycles()),
        ("E", slots),
        ("F", releases),
        ("G", everywhere(&readings.late_frame)),
        ("H", everywhere(&readings.late_acknowledgement)),
        ("I", frames::bare_frame()),
        ("J", frames::note_frame()),
        ("K", frames::humidity()),
        ("L", everywhere(&overtaking)),
        ("M", readings.settles()),
        ("limits of windows and bounds:", drafts::other_limits()),
        ("RFC 1071", frames::rfc_example()),
    ];
    show(&rt, &cases)?;
    show_airs(&rt, "G", links::AIRS, readings.late_frame)?;
    show_airs(&rt, "H", links::AIRS, readings.late_acknowledgement)?;
    show_airs(&rt, "L", airs::AIRS, overtaking)?;
    show_airs(&rt, "M", links::AIRS, readings.settling)?;
    show_kinds(&rt, ozone, winds)?;
    show_frames(&rt)?;
    show_boards(&rt)?;
    theorems::hold_with_orders();
    theorems::hold::<Wind, Ozone>();
    println!(rt;
        "shown of the definitions, too: {}",
        worked::shown::<Reading, Order>()
    )
}
