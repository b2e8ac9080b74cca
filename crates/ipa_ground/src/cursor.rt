//! Where the enumeration of patterns stands: at the classes of the next one.
ghost use Rattle.std.specs.Prelude.{◌≡◌, ℕ, ◌+◌, ◌<◌, ◌≤◌, [], length, take, slice_index, MatchBool};
ghost use Rattle.ipa_logic.specs.Facts.{size_of};
ghost use Rattle.ipa_ground.specs.Patterns.{AreConstants, AreSorts};
ghost use Rattle.ipa_ground.specs.PatternValues.{later};

use ipa_logic::Universe;

/// The classes of the next pattern, how many classes of each variable's sort are in use before it,
/// and how many are in use behind all variables. Those of the constants are in use from the start.
#[derive(Drop)]
pub(crate) struct Cursor {
    pub(crate) constants: [u16; 8],
    pub(crate) sorts: [u8; 12],
    pub(crate) len: u8,
    pub(crate) classes: [u8; 12],
    pub(crate) limits: [u8; 12],
    pub(crate) universe: Universe,
}

impl Cursor {
    ghost use Rattle.ipa_ground.specs.Cursors.{sorts_in, classes_in, IsCursor, IsAt, IsBehind, IsOfVariables, IsSameButUsed, IsAnewFrom};

    /// The first pattern of variables of these sorts, which have so many constants: each variable has the first class
    /// of its sort.
    pub(crate) fn first(sorts: &[u8], constants: [u16; 8]) -> Cursor
        requires short { length sorts.now ≤ 12 }
        requires sorts { AreSorts sorts.now }
        requires constants { AreConstants constants }
        ensures cursor { IsCursor result }
        ensures at { IsAt result.constants result.sorts result.classes result.limits result.universe.sizes result.len }
        ensures constants { result.constants ≡ constants }
        ensures sorts { sorts_in result ≡ sorts.now }
        ensures len { result.len ≡ length sorts.now }
        ensures classes { (j : ℕ) → j < result.len → slice_index result.classes j ≡ 0 }
    {
        let mut cursor = Cursor {
            constants,
            sorts: in_places(sorts),
            len: sorts.len() as u8,
            classes: [0; 12],
            limits: [0; 12],
            universe: Universe { sizes: constants },
        };
        cursor.restart(0);
        cursor
    }

    /// Goes to the next pattern, unless this is the last one.
    pub(crate) fn advance(&mut self) -> bool
        requires cursor { IsCursor self.old }
        requires at { IsAt self.old.constants self.old.sorts self.old.classes self.old.limits self.old.universe.sizes self.old.len }
        ensures cursor { IsCursor self.new }
        ensures variables { IsOfVariables self.old self.new }
        ensures moves { MatchBool result (IsBehind self.old self.new) (later self.old.constants (sorts_in self.old) (classes_in self.old) ≡ []) }
    {
        let mut place = self.len;
        while place > 0 {
            place -= 1;
            self.close(place);
            if self.classes[place as usize] < self.limits[place as usize] {
                self.classes[place as usize] += 1;
                self.open(place);
                self.restart(place + 1);
                return true;
            }
        }
        false
    }

    // Gives the variables from a place on the first classes that they can have.
    fn restart(&mut self, from: u8)
        requires cursor { IsCursor self.old }
        requires within { from ≤ self.old.len }
        requires at { IsAt self.old.constants self.old.sorts self.old.classes self.old.limits self.old.universe.sizes from }
        ensures cursor { IsCursor self.new }
        ensures variables { IsOfVariables self.old self.new }
        ensures at { IsAt self.new.constants self.new.sorts self.new.classes self.new.limits self.new.universe.sizes self.new.len }
        ensures anew { IsAnewFrom self.old self.new from }
    {
        for place in from..self.len {
            self.classes[place as usize] = 0;
            self.limits[place as usize] = self
                .universe
                .sizes[self.sorts[place as usize] as usize] as u8;
            self.open(place);
        }
    }

    // Counts the class at a place as one in use.
    fn open(&mut self, place: u8)
        requires cursor { IsCursor self.old }
        requires within { place < self.old.len }
        requires at { IsAt self.old.constants self.old.sorts self.old.classes self.old.limits self.old.universe.sizes place }
        requires limit { slice_index self.old.limits place ≡ size_of self.old.universe.sizes (slice_index self.old.sorts place) }
        requires class { slice_index self.old.classes place ≤ slice_index self.old.limits place }
        ensures same { IsSameButUsed self.old self.new }
        ensures at { IsAt self.new.constants self.new.sorts self.new.classes self.new.limits self.new.universe.sizes (place + 1) }
    {
        if self.classes[place as usize] == self.limits[place as usize] {
            self.universe.sizes[self.sorts[place as usize] as usize] += 1;
        }
    }

    // Takes that back.
    fn close(&mut self, place: u8)
        requires cursor { IsCursor self.old }
        requires within { place < self.old.len }
        requires at { IsAt self.old.constants self.old.sorts self.old.classes self.old.limits self.old.universe.sizes (place + 1) }
        ensures same { IsSameButUsed self.old self.new }
        ensures at { IsAt self.new.constants self.new.sorts self.new.classes self.new.limits self.new.universe.sizes place }
    {
        if self.classes[place as usize] == self.limits[place as usize] {
            self.universe.sizes[self.sorts[place as usize] as usize] -= 1;
        }
    }
}

// The sorts in twelve places, with 0 past them.
fn in_places(sorts: &[u8]) -> [u8; 12]
    requires short { length sorts.now ≤ 12 }
    requires sorts { AreSorts sorts.now }
    ensures front { take (length sorts.now) result ≡ sorts.now }
    ensures width { length result ≡ 12 }
    ensures below { (j : ℕ) → slice_index result j < 8 }
{
    let mut places = [0; 12];
    for (place, sort) in sorts.iter().enumerate() {
        places[place] = *sort;
    }
    places
}

/// The numbers of constants as sizes of a universe.
pub(crate) fn sizes_of(constants: &[u8; 8]) -> [u16; 8]
    requires { AreConstants constants.now }
    ensures { result ≡ constants.now }
{
    let mut sizes = [0; 8];
    for (sort, count) in constants.iter().enumerate() {
        sizes[sort] = u16::from(*count);
    }
    sizes
}
