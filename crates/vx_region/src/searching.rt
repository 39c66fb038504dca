//! Looks in a list that stands in order.

/// The index of the last item for which the test holds, in a list where it holds for the first
/// ones and for none behind them; 0 if it holds for none. Each step takes one of two halves without
/// a branch, since no processor could foresee which. No clause says so: only costs rest on it.
pub(crate) fn last_that<T, P: Fn(&T) -> bool>(items: &[T], holds: P) -> usize
    requires { P.IsAlwaysCallable holds }
{
    let mut last = 0;
    let mut size = items.len();
    while size > 1 {
        let half = size / 2;
        let middle = last + half;
        last = if holds(&items[middle]) { middle } else { last };
        size -= half;
    }
    last
}
