//! Whether a set of candidates clears a pair of actions.
ghost use Rattle.std.specs.Prelude.{IfOk, MatchBool};
ghost use Rattle.ipa_spec.specs.Actions.{IsAction};
ghost use Rattle.ipa_repair.specs.Offers.{IsApartBothWays, Clears};

use crate::applying::apply_if_faultless;
use crate::candidates::Candidate;
use crate::listing::same_action;
use ipa_pairs::Search;
use ipa_spec::{Action, Spec};
use std::alloc::{AllocError, Global};

/// Whether the candidates fit together, and afterwards neither order of the two actions conflicts or
/// has a live triple that is too wide.
pub(crate) fn clears(
    alloc: Global,
    spec: &Spec,
    left: Action,
    right: Action,
    parts: &[Candidate],
) -> Result<bool, AllocError>
    requires left { IsAction spec.now left }
    requires right { IsAction spec.now right }
    ensures { IfOk result (λ clears. MatchBool clears (Clears spec.now left right parts.now) (Clears spec.now left right parts.now → ⊥)) }
{
    match apply_if_faultless(spec, parts)? {
        None => Ok(false),
        Some(next) => are_apart(alloc, &next, left, right),
    }
}

// Whether the two are apart in both orders. The first conflict that is found ends the search.
fn are_apart(alloc: Global, spec: &Spec, left: Action, right: Action) -> Result<bool, AllocError>
    requires left { IsAction spec.now left }
    requires right { IsAction spec.now right }
    ensures { IfOk result (λ apart. MatchBool apart (IsApartBothWays spec.now left right) (IsApartBothWays spec.now left right → ⊥)) }
{
    let mut search = Search::new(alloc, spec);
    if !search.is_apart(alloc, left, right)? {
        return Ok(false);
    }
    if same_action(left, right) {
        return Ok(true);
    }
    search.is_apart(alloc, right, left)
}
