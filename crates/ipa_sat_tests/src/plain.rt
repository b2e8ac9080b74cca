//! The definition's plain program: every assignment is tried, in order.

ghost use Rattle.std.specs.Prelude.{◌≡◌, ◌≤◌, IfOk, IfSome, IfNone, vec_len};
ghost use Rattle.std.specs.Bool.{OnTrue, OnFalse};
ghost use Rattle.ipa_sat.specs.Formula.{IsLeast, IsUnsatisfiable};
ghost use Rattle.ipa_sat_tests.specs.Plain.{IsFirstWith, HasNoneWith};

use ipa_sat::{Cnf, is_satisfied};
use std::alloc::{AllocError, Global};

/// Tries all assignments that begin with `values`, in order. Where one satisfies the formula, the
/// first such is left in `values`; otherwise they are as before.
fn first_with(cnf: &Cnf, values: &mut Vec<bool>) -> Result<bool, AllocError>
    requires { vec_len values.old ≤ cnf.now.vars }
    ensures first { IfOk result (λ found. OnTrue found (IsFirstWith cnf.now values.old.items values.new.items)) }
    ensures none { IfOk result (λ found. OnFalse found (HasNoneWith cnf.now values.old.items)) }
    ensures kept { IfOk result (λ found. OnFalse found (values.new.items ≡ values.old.items)) }
{
    if values.len() == cnf.vars() as usize {
        return Ok(is_satisfied(cnf, values.as_slice()));
    }
    values.push(false)?;
    if first_with(cnf, values)? {
        return Ok(true);
    }
    values.pop();
    values.push(true)?;
    if first_with(cnf, values)? {
        return Ok(true);
    }
    values.pop();
    Ok(false)
}

/// What `least` answers, by trying all assignments.
pub fn plain_least(alloc: Global, cnf: &Cnf) -> Result<Option<Vec<bool>>, AllocError>
    ensures found { IfOk result (λ answer. IfSome answer (λ a. IsLeast cnf.now a.items)) }
    ensures none { IfOk result (λ answer. IfNone answer (IsUnsatisfiable cnf.now)) }
{
    let mut values = Vec::new(alloc);
    if first_with(cnf, &mut values)? {
        Ok(Some(values))
    } else {
        Ok(None)
    }
}
