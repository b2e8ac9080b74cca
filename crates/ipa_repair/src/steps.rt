//! The steps of a greedy repair, and how it ends.
use crate::candidates::Offer;
use ipa_pairs::{Accepted, Analysis};
use ipa_spec::{Action, List, Spec};

/// A step: of a pair of conflicting actions one offer is applied.
#[derive(Drop)]
pub struct RepairStep {
    /// The pair's first action.
    pub left: Action,
    /// The pair's second action, which is not before the first in the order of actions.
    pub right: Action,
    /// All offers of the pair, in order.
    pub offers: List<Offer>,
    /// The place of the applied offer among them, from 1.
    pub applied: u32,
}

/// The end of a greedy repair.
#[derive(Drop)]
pub enum Repaired {
    /// The steps lead to this accepted specification.
    Done(Accepted, List<RepairStep>),
    /// The steps lead to this specification, and no offer of any pair lessens the conflicting pairs of
    /// it, or none conflict and a drop is not safe. Its analysis says what is left.
    Stuck(Spec, List<RepairStep>, Analysis),
}
