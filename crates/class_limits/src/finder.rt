//! The first number past a limit, in things and in lists of them.

ghost use Rattle.std.specs.Prelude.{◌≡◌, ℕ, Option, None, option_to_list};
ghost use Rattle.class_limits.specs.Limits.{first};

/// What finds the first number past a limit in a thing.
pub(crate) trait Finder<T> {
    ghost found: { T → Option ℕ };

    fn find(&self, item: &T) -> Option<u64>
        ensures { result ≡ found item.now };
}

/// The first of what is found in each item.
#[tactic(auto, using(crate::proofs::First::none_yet, crate::proofs::First::none_more, crate::proofs::First::found_here, crate::proofs::First::none_in_all))]
pub(crate) fn find_in<T, F: Finder<T>>(finder: &F, items: &[T]) -> Option<u64>
    ensures { result ≡ first F.found items.now }
{
    for item in items {
        if let Some(n) = finder.find(item) {
            return Some(n);
        }
    }
    None
}

/// What is found in an item that may be absent.
#[tactic(auto, using(crate::proofs::First::first_none, crate::proofs::First::first_one))]
pub(crate) fn find_if<T, F: Finder<T>>(finder: &F, item: &Option<T>) -> Option<u64>
    ensures { result ≡ first F.found (option_to_list item.now) }
{
    match item {
        Some(item) => finder.find(item),
        None => None,
    }
}
