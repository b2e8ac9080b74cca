//! A plain round: a turn of each session in order, and then of each link.
ghost use Rattle.std.specs.Prelude.{◌≡◌, ◌++◌, map, IfOk, OnOk};
ghost use Rattle.ipa_schedule.specs.Schedules.{below, links_from, links_of};
ghost use Rattle.ipa_schedule.specs.declared.turns.Turn.TheVariants.{Session};

use crate::turns::Turn;
use std::alloc::{AllocError, Global};

// The turns of a round with so many sessions and replicas.
pub(crate) fn round(alloc: Global, sessions: u8, replicas: u8) -> Result<Vec<Turn>, AllocError>
    ensures { IfOk result (λ turns. turns.items ≡ map Session (below sessions) ++ links_of replicas) }
{
    let mut turns = session_turns(alloc, sessions)?;
    let links = links(alloc, replicas)?;
    turns.extend_from_slice(&links)?;
    Ok(turns)
}

// A turn of each session.
fn session_turns(alloc: Global, sessions: u8) -> Result<Vec<Turn>, AllocError>
    ensures { IfOk result (λ turns. turns.items ≡ map Session (below sessions)) }
{
    (0..sessions)
        .map(|session| Turn::Session(session))
        .collect(alloc)
}

// All links, in order.
pub(crate) fn links(alloc: Global, replicas: u8) -> Result<Vec<Turn>, AllocError>
    ensures { IfOk result (λ links. links.items ≡ links_of replicas) }
{
    let mut links = Vec::new(alloc);
    for from in 0..replicas {
        let more = links_of_one(alloc, replicas, from)?;
        links.extend_from_slice(&more)?;
    }
    Ok(links)
}

// The links from one replica to each other, in order.
fn links_of_one(alloc: Global, replicas: u8, from: u8) -> Result<Vec<Turn>, AllocError>
    ensures { IfOk result (λ links. links.items ≡ links_from replicas from) }
{
    (0..replicas)
        .filter(|to| *to != from)
        .map(|to| Turn::Link { from, to })
        .collect(alloc)
}
