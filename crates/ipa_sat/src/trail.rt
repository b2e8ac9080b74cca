//! The trail of a search: the literals that are taken to be true, in order, and the values that
//! they give.

ghost use Rattle.std.specs.Prelude.{◌≡◌, ◌<◌, ◌^◌, [], ◌∷◌, ◌++◌, None, length, slice_get, OnOk, OnErr, IfOk, IfSome, IfNone, IsTrue, ◌↔◌, Some, option_to_list, option_map};
ghost use Rattle.ipa_sat.specs.Trail.{known, AgreesWith, EachStep, IsNew};

use crate::cnf::Lit;
use std::alloc::{AllocError, Global};
use std::marker::Model;

/// A literal that is taken to be true: decided at will, or following from the steps before.
#[derive(Clone, Copy)]
pub(crate) struct Taken {
    pub lit: Lit,
    pub decided: bool,
    /// The place of the clause that it follows from, if it was not decided.
    pub reason: usize,
}

/// The steps of a search, no two of one variable.
#[derive(Drop)]
pub(crate) struct Trail {
    steps: Vec<Taken>,
    values: Vec<Option<bool>>,
}

impl Model for Trail {
    ghost use Rattle.std.specs.Prelude.{length};
    ghost use Rattle.ipa_sat.specs.Trail.{Course, IsCourse};

    ghost Value = { Course };

    ghost view = { λ a. record { vars = length a.values.items; steps = a.steps.items } };

    ghost invariant = { λ a. IsCourse a.steps.items a.values.items };
}

impl Trail {
    /// The trail without steps, over `vars` variables.
    pub fn new(alloc: Global, vars: u32) -> Result<Trail, AllocError>
        ensures { IfOk result (λ trail. trail ≡ record { vars = vars; steps = [] }) }
    {
        Ok(Trail {
            steps: Vec::new(alloc),
            values: vec![in alloc; None; vars as usize]?,
        })
    }

    /// The value of a variable, if a step gives it one.
    pub fn value(&self, var: u32) -> Option<bool>
        requires { var < self.now.vars }
        ensures { result ≡ known self.now.steps var }
    {
        self.values[var as usize]
    }

    /// Whether a literal is known to be true.
    pub fn is_true(&self, lit: Lit) -> bool
        ensures { IsTrue result ↔ (known self.now.steps lit.var ≡ Some lit.positive) }
    {
        match self.values.get(lit.var as usize) {
            Some(Some(sign)) => *sign == lit.positive,
            _ => false,
        }
    }

    /// The values of all variables, false where a variable has none.
    pub fn read(&self, alloc: Global) -> Result<Vec<bool>, AllocError>
        ensures total { IfOk result (λ a. length a.items ≡ self.now.vars) }
        ensures agrees { IfOk result (λ a. AgreesWith self.now.steps a.items) }
        ensures new { EachStep (IsNew self.now.vars) self.now.steps }
    {
        self.values
            .iter()
            .map(|value| value.unwrap_or(false))
            .collect(alloc)
    }

    /// Takes one more step, of a variable without a value.
    pub fn push(&mut self, step: Taken) -> Result<(), AllocError>
        requires in_range { step.lit.var < self.old.vars }
        requires fresh { known self.old.steps step.lit.var ≡ None }
        ensures ok { OnOk result (self.new ≡ record self.old { steps = self.old.steps ++ step ∷ [] }) }
        ensures err { OnErr result (self.new ≡ self.old) }
    {
        self.steps.push(step)?;
        self.values[step.lit.var as usize] = Some(step.lit.positive);
        Ok(())
    }

    /// Takes back the last step, if there is one.
    pub fn pop(&mut self) -> Option<Taken>
        ensures vars { self.new.vars ≡ self.old.vars }
        ensures small { self.new.vars < 2 ^ 32 }
        ensures steps { self.old.steps ≡ self.new.steps ++ option_to_list result }
        ensures new { IfSome result (IsNew self.new.vars self.new.steps) }
        ensures all { EachStep (IsNew self.new.vars) self.new.steps }
        ensures none { IfNone result (self.old.steps ≡ []) }
    {
        let step = self.steps.pop()?;
        self.values[step.lit.var as usize] = None;
        Some(step)
    }

    /// The number of steps.
    pub fn len(&self) -> usize
        ensures length { result ≡ length self.now.steps }
        ensures new { EachStep (IsNew self.now.vars) self.now.steps }
    {
        self.steps.len()
    }

    /// A step, by its place from 0.
    pub fn step(&self, place: usize) -> Option<Taken>
        ensures { result ≡ slice_get self.now.steps place }
    {
        self.steps.get(place).copied()
    }

    /// The literal of a step, by the step's place from 0.
    pub fn literal(&self, place: usize) -> Option<Lit>
        ensures { result ≡ option_map (λ s. s.lit) (slice_get self.now.steps place) }
    {
        self.steps.get(place).map(|s| s.lit)
    }
}
