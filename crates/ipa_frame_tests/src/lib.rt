//! Frames by examples: the bytes of one frame, each of its proper prefixes, and what one changed byte makes of it.
#![tactic(auto)]

#[cfg(test)]
mod tests;
