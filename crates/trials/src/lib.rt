//! Tests by examples: the ends of each field's range, elements of each kind as bytes, the check against a plain sum, frames at the ends of
//! their lengths, frames with one thing wrong, airs one against another, drafts at the ends of their limits, numbers that start over
//! against a plain search, every call of a sender, a receiver, an end and a link, late frames at the limits of a cycle, long flights of a
//! link beside a plain model, a board of each kind, and the text of ozone, winds, notes, headlines, bare frames and a verdict. All calls of
//! a link are made, and flights flown, with each kind that goes to the hut. The code is proved to answer what the definitions say; these
//! hold both against values worked out by hand.
//!
//! It must know nothing of how the other crates are made: it makes public calls alone. The plain model knows no cycles and no bytes.
#![tactic(auto)]

#[cfg(test)]
mod airs;
#[cfg(test)]
mod boards;
#[cfg(test)]
mod calls;
#[cfg(test)]
mod checks;
#[cfg(test)]
mod drafts;
#[cfg(test)]
mod elements;
#[cfg(test)]
mod ends;
#[cfg(test)]
mod flights;
#[cfg(test)]
mod frames;
#[cfg(test)]
mod kinds;
#[cfg(test)]
mod limits;
#[cfg(test)]
mod links;
#[cfg(test)]
mod model;
#[cfg(test)]
mod printing;
#[cfg(test)]
mod windows;
