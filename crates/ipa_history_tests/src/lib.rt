//! Worked histories: what no clause says of them, worked out by hand, and that each call succeeds with ample memory.
#![tactic(auto)]

#[cfg(test)]
mod cups;
#[cfg(test)]
mod played;
#[cfg(test)]
mod stories;
#[cfg(test)]
mod telling;
