//! The ways of making variables of one sort equal to each other and to constants, one after the other.
//!
//! The next pattern raises the last class that can be raised, and starts anew after it. How many
//! classes were in use before each variable is kept beside the classes, so that the search for that
//! place opens and closes one class at a step, and most steps are at the last variables.
ghost use Rattle.std.specs.Prelude.{◌≡◌, ◌≤◌, [], ◌∷◌, length, map, MatchOption};
ghost use Rattle.ipa_ground.specs.Patterns.{AreConstants, AreSorts, patterns};

use crate::counting::{variables_of, ways};
use crate::cursor::{Cursor, sizes_of};
use ipa_logic::Universe;
use std::marker::Model;

/// A way of making variables of one sort equal to each other and to constants of the sort.
#[derive(Clone, Copy)]
pub struct Pattern {
    /// The class of each variable among those of its sort, of which the constants have the first; 0 past the variables.
    pub classes: [u8; 12],
    /// The number of variables.
    pub len: u8,
    /// The number of classes of each sort: the universe that has just the constants and the other classes as elements.
    pub universe: Universe,
}

/// The patterns of some variables that are still to come, in lexicographic order of their classes.
#[derive(Drop)]
pub struct Patterns {
    cursor: Cursor,
    is_done: bool,
}

impl Model for Patterns {
    ghost use Rattle.std.specs.Prelude.{List};
    ghost use Rattle.ipa_ground.specs.declared.patterns.Pattern.{Pattern};
    ghost use Rattle.ipa_ground.specs.Cursors.{to_come, IsStanding};

    ghost Value = { List Pattern };

    ghost view = { λ a. to_come a.cursor a.is_done };

    ghost invariant = { λ a. IsStanding a.cursor a.is_done };
}

impl Patterns {
    ghost use Rattle.ipa_ground.specs.PatternValues.{pattern_of};

    /// All patterns of variables of these sorts, of which there are at most 12, each below 8. Each sort has so many
    /// constants, at most 4.
    pub fn new(sorts: &[u8], constants: &[u8; 8]) -> Patterns
        requires few { length sorts.now ≤ 12 }
        requires sorts { AreSorts sorts.now }
        requires constants { AreConstants constants.now }
        ensures { result ≡ map (pattern_of constants.now sorts.now) (patterns constants.now sorts.now) }
    {
        Patterns {
            cursor: Cursor::first(sorts, sizes_of(constants)),
            is_done: false,
        }
    }

    /// The next pattern, or `None` where all have been given.
    pub fn next(&mut self) -> Option<Pattern>
        ensures { MatchOption result ((self.old ≡ []) × (self.new ≡ [])) (λ pattern. self.old ≡ pattern ∷ self.new) }
    {
        if self.is_done {
            return None;
        }
        let pattern = Pattern {
            classes: self.cursor.classes,
            len: self.cursor.len,
            universe: self.cursor.universe,
        };
        self.is_done = !self.cursor.advance();
        Some(pattern)
    }

    /// The number of patterns of variables of these sorts, of which there are at most 12, each
    /// below 8. Each sort has so many constants, at most 4.
    pub fn count(sorts: &[u8], constants: &[u8; 8]) -> u64
        requires few { length sorts.now ≤ 12 }
        requires sorts { AreSorts sorts.now }
        requires constants { AreConstants constants.now }
        ensures { result ≡ length (patterns constants.now sorts.now) }
    {
        let mut count = 1;
        for sort in 0..8 {
            count *= ways(variables_of(sorts, sort), constants[sort as usize]);
        }
        count
    }
}
