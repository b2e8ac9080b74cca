//! The state that an assignment stands for.
ghost use Rattle.std.specs.Prelude.{◌≡◌, ◌+◌, length, IfOk};
ghost use Rattle.ipa_ground.specs.Grounding.{test_of};
ghost use Rattle.ipa_logic.specs.Facts.{IsRising};
ghost use Rattle.ipa_models.specs.Answers.{StandsFor};

use ipa_logic::{Fact, State};
use std::alloc::{AllocError, Global};

/// The state of the facts that the assignment makes true: its variables from 6 on stand for them, in
/// order.
pub(crate) fn state_of(
    alloc: Global,
    facts: &[Fact],
    assignment: &[bool],
) -> Result<State, AllocError>
    requires rising { IsRising facts.now }
    requires total { length assignment.now ≡ 6 + length facts.now }
    ensures { IfOk result (λ state. StandsFor facts.now assignment.now state) }
{
    let mut state = State::new(alloc);
    for (place, fact) in facts.iter().enumerate() {
        if assignment[6 + place] {
            state.insert(*fact)?;
        }
    }
    Ok(state)
}
