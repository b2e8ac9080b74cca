//! What a peer is known to have.
ghost use Rattle.std.specs.Prelude.{◌≡◌, IfOk};
ghost use Rattle.ipa_clock.specs.Cut.{empty, joined};
ghost use Rattle.ipa_gate.specs.Agreements.{beyond_of};

use ipa_clock::Cut;
use ipa_gate::Log;
use ipa_history::Tx;
use ipa_spec::List;
use std::alloc::AllocError;
use std::marker::Model;

/// What is sent to one peer, and what the peer is known to have.
#[derive(Clone, Copy)]
pub struct Sender {
    peer: Cut,
}

impl Model for Sender {
    ghost use Rattle.ipa_clock.specs.declared.cut.Cut.{Cut};

    ghost Value = { Cut };

    ghost view = { λ a. a.peer };

    ghost inverse = { λ cut. record { peer = cut } };
}

impl Sender {
    /// The sender to a peer that is not known to have anything.
    pub fn new() -> Sender
        ensures { result ≡ empty }
    {
        Sender { peer: Cut::empty() }
    }

    /// The first 64 entries of the log, in log order, that the peer is not known to have.
    pub fn batch(&self, log: &Log) -> Result<List<Tx>, AllocError>
        ensures { IfOk result (λ batch. batch ≡ beyond_of log.now.entries self.now) }
    {
        log.beyond(&self.peer)
    }

    /// Learns that the peer has all of this cut, besides what it is known to have. Takes no memory.
    pub fn heard(&mut self, clock: &Cut)
        ensures { self.new ≡ joined self.old clock.now }
    {
        self.peer = self.peer.joined(clock);
    }

    /// What the peer is known to have.
    pub fn peer_has(&self) -> Cut
        ensures { result ≡ self.now }
    {
        self.peer
    }
}
