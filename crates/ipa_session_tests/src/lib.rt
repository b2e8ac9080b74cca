//! Sessions by examples: what one alone is answered, and what it finds in a log that lacks what it has seen.
#![tactic(auto)]

#[cfg(test)]
mod alone;
#[cfg(test)]
mod diverging;
#[cfg(test)]
mod documents;
