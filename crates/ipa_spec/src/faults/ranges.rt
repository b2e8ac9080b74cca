//! The used and the unused places of a predicate.
ghost use Rattle.std.specs.Prelude.{◌≡◌, take, drop};

// The first items, as many as there are up to `count`.
pub(super) fn first_items<T>(items: &[T], count: u8) -> &[T]
    ensures { result.now ≡ take count items.now }
{
    if (count as usize) < items.len() {
        &items[..count as usize]
    } else {
        items
    }
}

// The items after the first `count`.
pub(super) fn later_items<T>(items: &[T], count: u8) -> &[T]
    ensures { result.now ≡ drop count items.now }
{
    if (count as usize) < items.len() {
        &items[count as usize..]
    } else {
        &items[items.len()..]
    }
}
