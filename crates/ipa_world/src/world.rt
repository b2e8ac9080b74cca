//! Worlds: what they have, and how they begin.
ghost use Rattle.std.specs.Prelude.{◌≡◌, ℕ, ◌<◌, List as Items, length, map, replicate, slice_get, option_map, Some, [], IfOk};
ghost use Rattle.std.specs.Option.{option_copied};
ghost use Rattle.ipa_clock.specs.Cut.{empty};
ghost use Rattle.ipa_clock.specs.declared.cut.Cut.{Cut as TheCut};
ghost use Rattle.ipa_logic.specs.Requests.{IsRequest};
ghost use Rattle.ipa_logic.specs.declared.facts.Request.{Request as TheRequest};
ghost use Rattle.ipa_history.specs.declared.history.Tx.{Tx as TheTx};
ghost use Rattle.ipa_gate.specs.Agreements.{beyond_of};
ghost use Rattle.ipa_reader.specs.declared.sessions.SessionWork.{SessionWork as TheWork};
ghost use Rattle.ipa_world.specs.Worlds.{seat_of};
ghost use Rattle.ipa_world.specs.Seats.{seat_parts};
ghost use Rattle.ipa_world.specs.Standing.{entries_of, AreLogged, IsSeated, AreSeated};
ghost use Rattle.ipa_world.specs.Places.{AreUnread};

use crate::seats::Seat;
use ipa_gate::{Log, Setting};
use ipa_history::{Outcome, Tx};
use ipa_link::Sender;
use ipa_logic::Request;
use ipa_reader::{SessionWork, Setup};
use ipa_session::Session;
use ipa_spec::List;
use std::alloc::{AllocError, Global};
use std::marker::Model;

/// Replicas that keep a log each, sessions that act at them, and a sender on each link from one replica to another.
#[derive(Drop)]
pub struct World {
    pub(crate) alloc: Global,
    pub(crate) setting: Setting,
    pub(crate) logs: Vec<Log>,
    pub(crate) seats: Vec<Seat>,
    // The sender from replica a to replica b has the place 8a + b.
    pub(crate) senders: Vec<Sender>,
    // For each of these links, how many of the first entries of its sender's log its receiver is known to have.
    pub(crate) covered: [u32; 64],
}

impl Model for World {
    ghost use Rattle.ipa_world.specs.Worlds.{WorldParts};
    ghost use Rattle.ipa_world.specs.Standing.{world_of};
    ghost use Rattle.ipa_world.specs.Places.{IsHeld};

    ghost Value = { WorldParts };

    ghost view = { λ a. world_of a.setting a.logs.items a.seats.items a.senders.items };

    ghost invariant = { λ a. IsHeld a.setting a.logs.items a.seats.items a.senders.items a.covered };
}

impl World {
    ghost use Rattle.ipa_world.specs.Worlds.{SeatParts, start_of, link_of, next_request};

    /// The world of this setting and the setup's sessions and replicas, in which nothing has happened.
    pub fn new(alloc: Global, setting: Setting, setup: &Setup) -> Result<World, AllocError>
        requires universe { setup.now.universe.sizes ≡ setting.universe }
        requires base { setup.now.base ≡ setting.base }
        requires sessions { length setup.now.sessions ≡ setting.sessions }
        requires fit { (k j : ℕ) (work : TheWork) (request : TheRequest) → slice_get setup.now.sessions k ≡ Some work →
            slice_get work.requests j ≡ Some request → IsRequest setting.spec setting.universe request }
        ensures { IfOk result (λ world. world ≡ start_of setting setup.now.sessions setup.now.replicas) }
    {
        let _accepted = setting.accepted();
        let logs = new_logs(alloc, &setting, setup.replicas)?;
        let seats = new_seats(alloc, &setting, setup.sessions.as_slice())?;
        let senders = new_senders(alloc)?;
        Ok(World {
            alloc,
            setting,
            logs,
            seats,
            senders,
            covered: [0; 64],
        })
    }

    /// The setting.
    pub fn setting(&self) -> &Setting
        ensures { result.now ≡ self.now.setting }
    {
        &self.setting
    }

    /// The number of replicas.
    pub fn replicas(&self) -> u8
        ensures { result ≡ length self.now.logs }
    {
        self.logs.len() as u8
    }

    /// The number of sessions.
    pub fn sessions(&self) -> u8
        ensures { result ≡ length self.now.seats }
    {
        self.setting.sessions()
    }

    /// The log of a replica.
    pub fn log(&self, replica: u8) -> &Log
        requires { replica < length self.now.logs }
        ensures entries { slice_get self.now.logs replica ≡ Some result.now.entries }
        ensures setting { result.now.setting ≡ self.now.setting }
    {
        &self.logs[replica as usize]
    }

    /// A session.
    pub fn session(&self, session: u8) -> &Session
        requires { session < length self.now.seats }
        ensures seen { option_map (λ seat. seat.seen) (slice_get self.now.seats session) ≡ Some result.now.seen }
        ensures setting { result.now.setting ≡ self.now.setting }
        ensures origin { result.now.origin ≡ session }
    {
        &self.seats[session as usize].session
    }

    /// What a session was answered, in the order of its requests.
    pub fn outcomes(&self, session: u8) -> &List<Outcome>
        requires { session < length self.now.seats }
        ensures { option_map (λ seat. seat.outcomes) (slice_get self.now.seats session) ≡ Some result.now }
    {
        &self.seats[session as usize].outcomes
    }

    /// What a session was to ask, in order.
    pub fn requests(&self, session: u8) -> &List<Request>
        requires { session < length self.now.seats }
        ensures { option_map (λ seat. seat.requests) (slice_get self.now.seats session) ≡ Some result.now }
    {
        &self.seats[session as usize].requests
    }

    /// The request that a session asks next, or `None` where none is left.
    pub fn next_request(&self, session: u8) -> Option<&Request>
        requires { session < length self.now.seats }
        ensures { (seat : SeatParts) → slice_get self.now.seats session ≡ Some seat →
            option_copied result ≡ next_request seat }
    {
        self.seats[session as usize].next_request()
    }

    /// The first 64 entries of one replica's log that its sender does not know another replica to have.
    pub fn batch(&self, from: u8, to: u8) -> Result<List<Tx>, AllocError>
        requires sends { from < length self.now.logs }
        requires receives { to < length self.now.logs }
        ensures { (log : Items TheTx) (known : TheCut) → slice_get self.now.logs from ≡ Some log →
            slice_get self.now.peers (link_of from to) ≡ Some known → IfOk result (λ batch. batch ≡ beyond_of log known) }
    {
        let link = 8 * from as usize + to as usize;
        let known = self.senders[link].peer_has();
        self.logs[from as usize].beyond_from(&known, self.covered[link])
    }
}

// So many logs of the setting without entries.
fn new_logs(alloc: Global, setting: &Setting, count: u8) -> Result<Vec<Log>, AllocError>
    ensures entries { IfOk result (λ logs. map entries_of logs.items ≡ replicate count []) }
    ensures logged { IfOk result (λ logs. AreLogged setting.now logs.items) }
{
    let mut logs = Vec::new(alloc);
    for number in 0..count {
        logs.push(Log::new(alloc, setting.copy()?))?;
    }
    Ok(logs)
}

// A sender for each link, which knows of nothing.
fn new_senders(alloc: Global) -> Result<Vec<Sender>, AllocError>
    ensures { IfOk result (λ senders. senders.items ≡ replicate 64 empty) }
{
    let senders = vec![in alloc; Sender::new(); 64]?;
    Ok(senders)
}

// The sessions of a setup, which have seen nothing.
fn new_seats(
    alloc: Global,
    setting: &Setting,
    sessions: &[SessionWork],
) -> Result<Vec<Seat>, AllocError>
    requires { length sessions.now ≡ setting.now.sessions }
    ensures parts { IfOk result (λ seats. map seat_parts seats.items ≡ map seat_of sessions.now) }
    ensures seated { IfOk result (λ seats. AreSeated setting.now seats.items) }
    ensures unread { IfOk result (λ seats. AreUnread seats.items) }
{
    let few = setting.sessions();
    let mut seats = Vec::new(alloc);
    for work in sessions {
        let origin = seats.len() as u8;
        seats.push(new_seat(alloc, setting, origin, work)?)?;
    }
    Ok(seats)
}

// A session of a setup, which has seen nothing.
fn new_seat(
    alloc: Global,
    setting: &Setting,
    origin: u8,
    work: &SessionWork,
) -> Result<Seat, AllocError>
    requires { origin < setting.now.sessions }
    ensures parts { IfOk result (λ seat. seat_parts seat ≡ seat_of work.now) }
    ensures seated { IfOk result (λ seat. IsSeated setting.now origin seat) }
    ensures unread { IfOk result (λ seat. seat.read ≡ 0) }
{
    Ok(Seat {
        replica: work.replica,
        requests: List::from_vec(work.requests.as_slice().to_vec(alloc)?),
        session: Session::new(alloc, setting.copy()?, origin)?,
        read: 0,
        outcomes: List::new(alloc),
    })
}
