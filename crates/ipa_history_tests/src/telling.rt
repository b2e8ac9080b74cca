//! Stories: what is done, and what is then so.
use crate::played::{Game, Move, Seen, are_facts};
use ipa_history::{Answer, Reason};
use ipa_logic::{Broken, Fact, Request};
use ipa_spec::Pick;
use std::alloc::Global;
use std::test::Fail;

/// What is so after the moves of a story.
#[derive(Clone, Copy)]
pub enum So {
    /// Just these facts are true at the cut.
    State(Seen, &'static [Fact]),
    /// This instance of the clause is the first that is broken at the cut, or none is.
    Broken(Seen, Option<Broken>),
    /// This is the first reason against the move, or it is legal.
    Next(Move, Option<Reason>),
    /// To an origin at the cut just these enrolments in the cup are shown, or in any.
    Shown(Seen, u8, Option<u16>, &'static [Fact]),
    /// An origin forgets the player at the cut under this number, or may not.
    Forgotten(Seen, u8, u16, Option<u32>),
}

/// A story.
#[derive(Clone, Copy)]
pub struct Story {
    /// What the bound picks.
    pub pick: Pick,
    /// The facts at its start.
    pub start: &'static [Fact],
    /// Whether each of its moves is legal.
    pub legal: bool,
    /// What is done.
    pub moves: &'static [Move],
    /// What is then so.
    pub so: &'static [So],
}

/// Makes the moves. Each is tested, if it is to be legal.
fn play(alloc: Global, game: &mut Game, story: &Story) -> Result<(), Fail> {
    for made in story.moves {
        if story.legal && game.reason(alloc, *made)?.is_some() {
            return Err("this is not legal".into());
        }
        game.append(*made)?;
    }
    Ok(())
}

/// Whether the enrolments that are shown to an origin are these.
fn shows(
    alloc: Global,
    game: &Game,
    seen: Seen,
    origin: u8,
    cup: Option<u16>,
    facts: &[Fact],
) -> Result<bool, Fail> {
    let request = Request::Show {
        predicate: 1,
        places: [None, cup, None],
    };
    match game.answer(alloc, seen, origin, &request)? {
        Answer::Shown(state) => are_facts(alloc, &state, facts),
        Answer::Commit(_) | Answer::Refused(_) => Ok(false),
    }
}

/// The number under which an origin forgets the player, if it may.
fn forgotten(
    alloc: Global,
    game: &Game,
    seen: Seen,
    origin: u8,
    player: u16,
) -> Result<Option<u32>, Fail> {
    let request = Request::Do {
        op: 3,
        args: [player, 0, 0, 0],
    };
    match game.answer(alloc, seen, origin, &request)? {
        Answer::Commit(number) => Ok(Some(number)),
        Answer::Refused(_) | Answer::Shown(_) => Ok(None),
    }
}

/// Whether it is so in the game.
fn is_so(alloc: Global, game: &Game, so: &So) -> Result<bool, Fail> {
    match *so {
        So::State(seen, facts) => game.is_state(alloc, seen, facts),
        So::Broken(seen, broken) => Ok(game.broken(alloc, seen)? == broken),
        So::Next(made, reason) => Ok(game.reason(alloc, made)? == reason),
        So::Shown(seen, origin, cup, facts) => shows(alloc, game, seen, origin, cup, facts),
        So::Forgotten(seen, origin, player, number) => {
            Ok(forgotten(alloc, game, seen, origin, player)? == number)
        }
    }
}

/// The place of the first of what is told that is not so, if there is one.
pub fn first_untrue(alloc: Global, story: &Story) -> Result<Option<usize>, Fail> {
    let mut game = Game::new(alloc, story.pick, story.start)?;
    play(alloc, &mut game, story)?;
    for place in 0..story.so.len() {
        if !is_so(alloc, &game, &story.so[place])? {
            return Ok(Some(place));
        }
    }
    Ok(None)
}
