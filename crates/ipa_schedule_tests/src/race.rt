//! The race for the last place of a cup, by two sessions at two replicas.
ghost use Rattle.std.specs.Prelude.{IfOk};
ghost use Rattle.ipa_reader.specs.Fitting.{IsFitting};
ghost use Rattle.ipa_schedule.specs.Ends.{IsNew};

use ipa_pairs::accept;
use ipa_reader::{Document, document_fits, kept_by_type, read_document};
use ipa_settings::setting_of;
use ipa_world::World;
use std::alloc::{AllocGlobal, Global};
use std::test::Fail;
use std::thread::Threads;

const RACE: &str = "\
sort player
sort cup
pred enrolled(player,cup) addwins
op enroll(p:player,t:cup)
add enrolled(p,t)
bound cap enrolled(p,t) counts p most 1
elem player ann bob cid
elem cup open
replicas 2
session 1
do enroll(ann,open)
show enrolled(*,*)
session 2
do enroll(bob,open)
show enrolled(*,*)
";

/// The document of the race, whose setup fits its specification.
fn document_of(alloc: Global) -> Result<Document, Fail>
    ensures { IfOk result (λ document. IsFitting document.spec document.setup.universe.sizes document.setup.elements
        document.setup.base document.setup.sessions) }
{
    document_fits();
    match read_document(alloc, RACE.as_bytes()) {
        Ok(document) => Ok(document),
        Err(_) => Err(Fail::from("the race is a document")),
    }
}

/// The world of the race, in which nothing has happened.
pub fn world_of<R: AllocGlobal + Threads + Sync>(rt: &R) -> Result<World, Fail>
    ensures { IfOk result IsNew }
{
    let alloc = rt.alloc();
    let document = document_of(alloc)?;
    kept_by_type();
    let Ok(accepted) = accept(rt, alloc, document.spec.copy()?) else {
        return Err(Fail::from("the race is accepted"));
    };
    let setting = setting_of(&document, accepted)?;
    Ok(World::new(alloc, setting, &document.setup)?)
}
