//! Two documents, and the setting of each.
ghost use Rattle.std.specs.Prelude.{◌≡◌, IfOk};
ghost use Rattle.ipa_settings.specs.DocumentSettings.{setting_of as setting_parts};

use ipa_gate::Setting;
use ipa_pairs::accept;
use ipa_reader::{Document, kept_by_type, read_document};
use ipa_settings::setting_of;
use std::alloc::{AllocGlobal, Global};
use std::test::Fail;
use std::thread::Threads;

/// A cup with one place, and a session that enrols two players.
pub const RACE: &str = "\
sort player
sort cup
pred enrolled(player,cup) addwins
op enroll(p:player,t:cup)
add enrolled(p,t)
bound cap enrolled(p,t) counts p most 1
elem player ann bob cid
elem cup open
session 1
do enroll(ann,open)
do enroll(bob,open)
show enrolled(*,*)
";

/// Cups in which only known players are, and a session that enrols one before and after it is known.
pub const ENROLMENT: &str = "\
sort player
sort cup
pred known(player) addwins
pred enrolled(player,cup) addwins
clause c1(p:player,t:cup): not enrolled(p,t) or known(p)
op add_player(p:player)
add known(p)
op rem_player(p:player)
del known(p)
op enroll(p:player,t:cup)
need known(p)
add enrolled(p,t)
add known(p)
elem player ann
elem cup open
session 1
do enroll(ann,open)
do add_player(ann)
do enroll(ann,open)
do rem_player(ann)
show enrolled(*,open)
";

/// The document with this text.
pub fn document_of(alloc: Global, text: &str) -> Result<Document, Fail> {
    let bytes = text.as_bytes();
    if bytes.len() > 4194304 {
        return Err(Fail::from("the text is short"));
    }
    match read_document(alloc, bytes) {
        Ok(document) => Ok(document),
        Err(_) => Err(Fail::from("the text is a document")),
    }
}

/// The setting in which the document is run.
pub fn setting_for<R: AllocGlobal + Threads + Sync>(
    rt: &R,
    document: &Document,
) -> Result<Setting, Fail>
    ensures { IfOk result (λ setting. setting ≡ setting_parts document.now) }
{
    kept_by_type();
    let Ok(accepted) = accept(rt, rt.alloc(), document.spec.copy()?) else {
        return Err(Fail::from("the specification is accepted"));
    };
    Ok(setting_of(document, accepted)?)
}
