//! Deliveries by examples: what a log of the race for the last place makes of one frame, of that frame with a byte
//! changed, and of many frames, and what is sent to a peer that has told of itself.
#![tactic(auto)]

#[cfg(test)]
mod bytes;
#[cfg(test)]
mod deliveries;
#[cfg(test)]
mod pours;
#[cfg(test)]
mod senders;
