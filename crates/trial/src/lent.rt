// What is lent to a call: the first items of a slice, and whether the call left as they were those that it may not change.
// `plan_of(file, front_mut(&mut rows, n.rows), front_mut(&mut predecessors, n.predecessors))`, then `kept_from(&rows, &old, end)`; `Parts` has both parts.
ghost use Rattle.std.specs.Prelude.{◌≡◌, ℕ, ◌-◌, ◌<◌, ◌≤◌, ◌↔◌, IsTrue, IsFalse, length, take, drop, slice_index_or};
ghost use Rattle.std.specs.Array.{IsFromFnResult};
ghost use Rattle.std.specs.Cmp.Lexicographic.{pointwise};
ghost use Rattle.trial.specs.Lent.{ReturnsOnTwo};

use std::array;

// How many entries of each part of a table are lent.
#[derive(Clone, Copy, PartialEq, Eq)]
pub struct Lengths {
    pub rows: usize,
    pub predecessors: usize,
}

// The first n items, or all where there are fewer.
pub fn front<T>(items: &[T], n: usize) -> &[T]
    ensures { result.now ≡ take n items.now }
{
    &items[..n.min(items.len())]
}

// The same to write into. What is written through it no clause says: tried, the proof of an `ensures*` did not close.
pub fn front_mut<T>(items: &mut [T], n: usize) -> &mut [T]
    ensures { result.now ≡ take n items.old }
{
    let end = n.min(items.len());
    &mut items[..end]
}

// The items from `start` on, none where there are no more.
pub fn back<T>(items: &[T], start: usize) -> &[T]
    ensures { result.now ≡ drop start items.now }
{
    &items[start.min(items.len())..]
}

// The items from `start` on are the same.
pub fn kept_from<T: PartialEq>(now: &[T], old: &[T], start: usize) -> bool
    ensures { length now.now ≡ length old.now → result ≡ pointwise T.eq (drop start now.now) (drop start old.now) }
{
    now.get(start..) == old.get(start..)
}

// The place from which on every item is as it was.
pub fn changed_end<T: PartialEq>(now: &[T], old: &[T]) -> usize
    ensures within { result ≤ length now.now }
    ensures last { (x : T) → 0 < result →
        IsFalse (T.eq (slice_index_or now.now (result - 1) x) (slice_index_or old.now (result - 1) x)) }
    ensures kept { (k : ℕ) (x : T) → result ≤ k → k < length now.now → k < length old.now →
        IsTrue (T.eq (slice_index_or now.now k x) (slice_index_or old.now k x)) }
{
    let mut end = 0;
    for (i, x) in now.iter().enumerate() {
        if old.get(i).is_some_and(|y| x != y) {
            end = i + 1;
        }
    }
    end
}

// Both parts of a table, of N entries each.
#[derive(Clone, Copy, PartialEq)]
pub struct Parts<const N: usize> {
    pub rows: [u16; N],
    pub predecessors: [u16; N],
}

impl<const N: usize> Parts<N> {
    // Parts of which `row` and `predecessor` say what stands at each entry.
    pub fn of<F: FnMut(usize) -> u16, G: FnMut(usize) -> u16>(row: F, predecessor: G) -> Parts<N>
        requires rows { F.IsAlwaysCallable row }
        requires predecessors { G.IsAlwaysCallable predecessor }
        ensures rows { IsFromFnResult F.FnMut row result.rows N }
        ensures predecessors { IsFromFnResult G.FnMut predecessor result.predecessors N }
    {
        Parts {
            rows: array::from_fn(row),
            predecessors: array::from_fn(predecessor),
        }
    }

    // What `call` answers over the first entries of both parts, or all where they have fewer.
    pub fn lent<R, F: FnOnce(&mut [u16], &mut [u16]) -> R>(&mut self, n: Lengths, call: F) -> R
        requires { F.IsAlwaysCallable call }
        ensures { ReturnsOnTwo F.FnOnce call (take n.rows self.old.rows) (take n.predecessors self.old.predecessors) result }
    {
        call(
            front_mut(&mut self.rows, n.rows),
            front_mut(&mut self.predecessors, n.predecessors),
        )
    }

    // The entries of both parts from `start` on are the same.
    pub fn kept_from(&self, old: &Parts<N>, start: usize) -> bool
        ensures { IsTrue result ↔ ((drop start self.now.rows ≡ drop start old.now.rows)
            × (drop start self.now.predecessors ≡ drop start old.now.predecessors)) }
    {
        kept_from(&self.rows, &old.rows, start)
            & kept_from(&self.predecessors, &old.predecessors, start)
    }

    // The place from which on every entry of both parts is as it was.
    pub fn changed_end(&self, old: &Parts<N>) -> usize
        ensures within { result ≤ N }
        ensures kept { (drop result self.now.rows ≡ drop result old.now.rows)
            × (drop result self.now.predecessors ≡ drop result old.now.predecessors) }
    {
        changed_end(&self.rows, &old.rows).max(changed_end(&self.predecessors, &old.predecessors))
    }
}
