//! Parts of slices that are cut short where there is less.

ghost use Rattle.std.specs.Prelude.{◌≡◌, ◌+◌, take, drop};

/// The first items, so many or all.
pub(crate) fn first_ones<T>(items: &[T], count: usize) -> &[T]
    ensures { result.now ≡ take count items.now }
{
    let (first, _) = items.split_at(count.min(items.len()));
    first
}

/// The items from one on.
pub(crate) fn all_from<T>(items: &[T], from: usize) -> &[T]
    ensures { result.now ≡ drop from items.now }
{
    let (_, behind) = items.split_at(from.min(items.len()));
    behind
}

/// The items behind one.
pub(crate) fn all_behind<T>(items: &[T], at: usize) -> &[T]
    ensures { result.now ≡ drop (at + 1) items.now }
{
    match all_from(items, at).split_first() {
        Some((_, behind)) => behind,
        None => &[],
    }
}
