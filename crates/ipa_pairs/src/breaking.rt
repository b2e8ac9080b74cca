//! Which clauses an action could break, told once for all triples with the action on the left.
ghost use Rattle.ipa_pairs.specs.Told.{AreBreakable};

use ipa_logic::can_break;
use ipa_spec::laws::spec_is_fit;
use ipa_spec::{Action, Spec};

/// Of each clause, in its place, whether the action could make a literal of it false, by predicates and kinds.
pub(crate) fn breakable_clauses(spec: &Spec, action: Action) -> [bool; 32]
    ensures { AreBreakable spec.now action result }
{
    spec_is_fit(spec);
    let mut breakable = [false; 32];
    for (place, clause) in spec.clauses().as_slice().iter().enumerate() {
        breakable[place] = can_break(spec, action, clause);
    }
    breakable
}
