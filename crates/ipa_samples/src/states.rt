//! Facts, and the states that have them.
use ipa_logic::{Fact, State};
use std::alloc::{AllocError, Global};

/// The fact of a predicate with these elements.
pub fn fact(predicate: u8, args: [u16; 3]) -> Fact {
    Fact { predicate, args }
}

/// The state of which these facts are true, and no others.
pub fn holding(alloc: Global, facts: &[Fact]) -> Result<State, AllocError> {
    let mut state = State::new(alloc);
    for fact in facts {
        let _changed = state.insert(*fact)?;
    }
    Ok(state)
}
