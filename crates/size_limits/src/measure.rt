//! Numbers of things, summed and compared. A number past 64 bits is their greatest.

ghost use Rattle.std.specs.Prelude.{◌≡◌, ℕ, max, sum_by, option_to_list};
ghost use Rattle.class_limits.specs.Limits.{told};
ghost use Rattle.size_limits.specs.Numbers.{most};

/// What gives a number for a thing.
pub(crate) trait Measure<T> {
    ghost measure: { T → ℕ };

    fn measure(&self, item: &T) -> u64
        ensures { result ≡ told (measure item.now) };
}

/// The numbers of items, together.
#[tactic(auto, using(crate::proofs::Sums::sum_none, crate::proofs::Sums::sum_more, crate::proofs::Sums::sum_all))]
pub(crate) fn sum_of<T, M: Measure<T>>(measure: &M, items: &[T]) -> u64
    ensures { result ≡ told (sum_by M.measure items.now) }
{
    let mut sum: u64 = 0;
    for item in items {
        sum = sum.saturating_add(measure.measure(item));
    }
    sum
}

pub(crate) fn larger(a: u64, b: u64) -> u64
    ensures { result ≡ max a b }
{
    if a < b { b } else { a }
}

/// The greatest of the numbers of items, 0 where there is none.
#[tactic(auto, using(crate::proofs::Sums::most_all))]
pub(crate) fn most_of<T, M: Measure<T>>(measure: &M, items: &[T]) -> u64
    ensures { result ≡ told (most M.measure items.now) }
{
    let mut greatest: u64 = 0;
    for item in items {
        greatest = larger(greatest, measure.measure(item));
    }
    greatest
}

/// The number of an item, 0 where it is absent.
#[tactic(auto, unfolding(crate::specs::Numbers::most), using(crate::proofs::Sums::most_one))]
pub(crate) fn of_some<T, M: Measure<T>>(measure: &M, item: &Option<T>) -> u64
    ensures { result ≡ told (most M.measure (option_to_list item.now)) }
{
    match item {
        Some(item) => measure.measure(item),
        None => 0,
    }
}
