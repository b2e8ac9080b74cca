//! Which shapes of removes there are: a shape is a predicate, and the places that have an element.
ghost use Rattle.std.specs.Prelude.{◌≡◌, ◌<◌, ◌≤◌, ◌||◌, ℕ, true, false, slice_index_or};
ghost use Rattle.std.specs.Option.{option_map_or};
ghost use Rattle.ipa_sets.specs.Shapes.{weight, shape, has_shape};
ghost use Rattle.ipa_sets.specs.declared.patterns.Pattern.{Pattern as ThePattern};

use crate::keys::Key;
use crate::patterns::Pattern;

/// Shapes of the patterns of removes. Most are never met, and a look tells so.
#[derive(Drop)]
pub struct Shapes {
    // For each predicate and each choice of places whether a remove of this shape was met.
    met: [bool; 2048],
}

impl Shapes {
    /// No shapes.
    pub fn new() -> Shapes
        ensures { (p : ThePattern) → has_shape result p ≡ false }
    {
        Shapes { met: [false; 2048] }
    }

    /// Adds the shape of the key's pattern, if it is that of a remove.
    pub fn meet(&mut self, key: &Key)
        ensures here { key.now.adds ≡ false → has_shape self.new key.now.pattern ≡ true }
        ensures kept { (p : ThePattern) → has_shape self.old p ≡ true → has_shape self.new p ≡ true }
    {
        if !key.adds {
            self.met[shape_of(&key.pattern)] = true;
        }
    }

    /// Whether the key is that of an add, or of a remove whose shape was met.
    pub fn may_have(&self, key: &Key) -> bool
        ensures { result ≡ (key.now.adds || has_shape self.now key.now.pattern) }
    {
        key.adds || self.met[shape_of(&key.pattern)]
    }
}

// The number of the pattern's shape.
fn shape_of(pattern: &Pattern) -> usize
    ensures value { result ≡ shape pattern.now }
    ensures low { result < 2048 }
{
    usize::from(pattern.predicate) * 8
        + weight(4, pattern.places[0])
        + weight(2, pattern.places[1])
        + weight(1, pattern.places[2])
}

// The weight of a place with any element, and 0 of one that has an element.
fn weight(most: usize, place: Option<u16>) -> usize
    ensures value { result ≡ weight most place }
    ensures low { result ≤ most }
{
    match place {
        Some(_) => 0,
        None => most,
    }
}
