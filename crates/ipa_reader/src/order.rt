//! The order of lines.
ghost use Rattle.std.specs.Prelude.{◌≡◌};
ghost use Rattle.ipa_reader.specs.Ordering.{is_setup, is_operation_part, is_out_of_order, next_place};

use ipa_forms::Form;

/// What the order of lines depends on, of the lines before a line.
#[derive(Clone, Copy, PartialEq, Eq)]
pub struct Place {
    /// There is a setup line.
    pub after_setup: bool,
    /// The last line other than `need`, `add` and `del` is `op`.
    pub after_operation: bool,
    /// The last line other than `drops` is `bound`.
    pub after_bound: bool,
    /// There is a `replicas` line.
    pub after_replicas: bool,
    /// There is a `session` line.
    pub after_session: bool,
}

/// Whether a line of this form may not stand there.
pub(crate) fn is_out_of_order(place: Place, line: &Form) -> bool
    ensures { result ≡ is_out_of_order place line.now }
{
    match line {
        Form::Need { .. } => place.after_setup || !place.after_operation,
        Form::Add { .. } => place.after_setup || !place.after_operation,
        Form::Del { .. } => place.after_setup || !place.after_operation,
        Form::Drops { .. } => place.after_setup || !place.after_bound,
        Form::Elem { .. } => false,
        Form::Base { .. } => false,
        Form::Replicas { .. } => place.after_replicas || place.after_session,
        Form::Session { .. } => false,
        Form::Do { .. } => !place.after_session,
        Form::Show { .. } => !place.after_session,
        _ => place.after_setup,
    }
}

/// Whether the line is a setup line.
fn is_setup(line: &Form) -> bool
    ensures { result ≡ is_setup line.now }
{
    match line {
        Form::Elem { .. } => true,
        Form::Base { .. } => true,
        Form::Replicas { .. } => true,
        Form::Session { .. } => true,
        Form::Do { .. } => true,
        Form::Show { .. } => true,
        _ => false,
    }
}

/// Whether the line goes on with an operation.
fn is_operation_part(line: &Form) -> bool
    ensures { result ≡ is_operation_part line.now }
{
    match line {
        Form::Need { .. } => true,
        Form::Add { .. } => true,
        Form::Del { .. } => true,
        _ => false,
    }
}

/// Whether an operation may go on behind the line.
fn after_operation(place: Place, line: &Form) -> bool
    ensures { result ≡ (next_place place line.now).after_operation }
{
    match line {
        Form::Op { .. } => true,
        _ => is_operation_part(line) && place.after_operation,
    }
}

/// Whether a bound may go on behind the line.
fn after_bound(place: Place, line: &Form) -> bool
    ensures { result ≡ (next_place place line.now).after_bound }
{
    match line {
        Form::Bound { .. } => true,
        Form::Drops { .. } => place.after_bound,
        _ => false,
    }
}

/// Whether there is a `replicas` line with this one.
fn after_replicas(place: Place, line: &Form) -> bool
    ensures { result ≡ (next_place place line.now).after_replicas }
{
    match line {
        Form::Replicas { .. } => true,
        _ => place.after_replicas,
    }
}

/// Whether there is a `session` line with this one.
fn after_session(place: Place, line: &Form) -> bool
    ensures { result ≡ (next_place place line.now).after_session }
{
    match line {
        Form::Session { .. } => true,
        _ => place.after_session,
    }
}

/// Where the line behind this one stands.
pub(crate) fn next_place(place: Place, line: &Form) -> Place
    ensures { result ≡ next_place place line.now }
{
    Place {
        after_setup: place.after_setup || is_setup(line),
        after_operation: after_operation(place, line),
        after_bound: after_bound(place, line),
        after_replicas: after_replicas(place, line),
        after_session: after_session(place, line),
    }
}
