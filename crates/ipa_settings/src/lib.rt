//! The setting in which a document is run: what its log is made for.
//!
//! A document that was read fits its setup: the base is a state over the universe that keeps clauses and bounds, and
//! each request is one of the specification. So with its specification accepted nothing is left to test, and
//! `setting_of` fails for want of memory alone.
//!
//! ```
//! let accepted = accept(rt, alloc, document.spec.copy()?)?;
//! let setting = setting_of(&document, accepted)?;
//! ```
#![tactic(auto)]

ghost use Rattle.std.specs.Prelude.{◌≡◌, IfOk};
ghost use Rattle.ipa_reader.specs.Fitting.{IsFitting};
ghost use Rattle.ipa_settings.specs.DocumentSettings.{setting_of};

use ipa_gate::Setting;
use ipa_pairs::Accepted;
use ipa_reader::{Document, kept_by_type};
use std::alloc::AllocError;

/// The setting of a run of the document, which was read, and whose specification is accepted.
pub fn setting_of(document: &Document, accepted: Accepted) -> Result<Setting, AllocError>
    requires fits { IsFitting document.now.spec document.now.setup.universe.sizes document.now.setup.elements document.now.setup.base document.now.setup.sessions }
    requires same { accepted ≡ document.now.spec }
    ensures { IfOk result (λ setting. setting ≡ setting_of document.now) }
{
    kept_by_type();
    let setup = &document.setup;
    let base = setup.base.copy()?;
    Ok(Setting::new(accepted, setup.universe, base, setup.sessions.len() as u8))
}
