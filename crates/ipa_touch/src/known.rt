//! The elements with which facts of a viewed state are true.
ghost use Rattle.std.specs.Prelude.{◌≡◌, ℕ, ◌<◌, ◌≤◌, true, [], ◌∷◌, List, MatchOption};
ghost use Rattle.ipa_logic.specs.Facts.{has};
ghost use Rattle.ipa_touch.specs.Leaps.{IsNextArgs, NoNextArgs};

use ipa_logic::{Fact, View};

// The least element from `from` on in the first place of a true fact of the predicate, or `end`.
pub(crate) fn first_known<V: View>(view: &V, predicate: u8, from: u16, end: u16) -> u16
    requires { 0 < from }
    ensures { (x y z : ℕ) → has (V.facts view.now) (record { predicate = predicate; args = x ∷ y ∷ z ∷ [] }) ≡ true → from ≤ x → result ≤ x }
{
    match next_args(view, predicate, [from - 1, u16::MAX, u16::MAX]) {
        None => end,
        Some(found) => {
            let [first, _, _] = found;
            first
        }
    }
}

// The same in the second place, where the first place has this element.
pub(crate) fn second_known<V: View>(view: &V, predicate: u8, one: u16, from: u16, end: u16) -> u16
    requires { 0 < from }
    ensures { (y z : ℕ) → has (V.facts view.now) (record { predicate = predicate; args = one ∷ y ∷ z ∷ [] }) ≡ true → from ≤ y → result ≤ y }
{
    match next_args(view, predicate, [one, from - 1, u16::MAX]) {
        None => end,
        Some(found) => {
            let [first, second, _] = found;
            if first == one { second } else { end }
        }
    }
}

// The same in the third place, where the first two places have these elements.
pub(crate) fn third_known<V: View>(
    view: &V,
    predicate: u8,
    one: u16,
    two: u16,
    from: u16,
    end: u16,
) -> u16
    requires { 0 < from }
    ensures { (z : ℕ) → has (V.facts view.now) (record { predicate = predicate; args = one ∷ two ∷ z ∷ [] }) ≡ true → from ≤ z → result ≤ z }
{
    match next_args(view, predicate, [one, two, from - 1]) {
        None => end,
        Some(found) => {
            let [first, second, third] = found;
            if first == one && second == two {
                third
            } else {
                end
            }
        }
    }
}

// The elements of the least true fact of the predicate whose elements come after these.
fn next_args<V: View>(view: &V, predicate: u8, args: [u16; 3]) -> Option<[u16; 3]>
    ensures { MatchOption result (NoNextArgs (V.facts view.now) predicate args) (IsNextArgs (V.facts view.now) predicate args) }
{
    match view.next_true(predicate, Some(Fact { predicate, args })) {
        None => None,
        Some(fact) => Some(fact.args),
    }
}
