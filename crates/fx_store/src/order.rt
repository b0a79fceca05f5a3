//! Lists in ascending order.
ghost use Rattle.std.specs.Prelude.{◌≡◌};
ghost use Rattle.fx_store.specs.Names.{is_above};

/// Whether an item is greater than the last of a list in ascending order.
pub(crate) fn is_above<T: Ord>(items: &[T], item: &T) -> bool
    ensures { result ≡ is_above T.cmp items.now item.now }
{
    match items.last() {
        Some(last) => last.cmp(item).is_lt(),
        None => true,
    }
}
