//! What the sessions of a world have to ask.
ghost use Rattle.std.specs.Prelude.{◌≡◌, max, MatchBool};
ghost use Rattle.ipa_world.specs.Lawful.{HasNoneLeft};
ghost use Rattle.ipa_schedule.specs.Plans.{HasOneLeft};
ghost use Rattle.ipa_schedule.specs.Schedules.{longest};

use ipa_world::World;

// The greatest number of requests of a session.
pub(crate) fn longest(world: &World) -> usize
    ensures { result ≡ longest world.now }
{
    let mut most = 0;
    for session in 0..world.sessions() {
        most = greater(most, world.requests(session).len());
    }
    most
}

// The greater of two numbers.
fn greater(one: usize, other: usize) -> usize
    ensures { result ≡ max one other }
{
    if one < other { other } else { one }
}

// Whether no session has a request left.
pub(crate) fn is_done(world: &World) -> bool
    ensures { MatchBool result (HasNoneLeft world.now) (HasOneLeft world.now) }
{
    for session in 0..world.sessions() {
        if let Some(_) = world.next_request(session) {
            return false;
        }
    }
    true
}
