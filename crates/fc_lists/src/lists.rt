// Lists in one list, one behind another.
ghost use Rattle.std.specs.Prelude.{◌≡◌, ◌+◌, ◌<◌, ◌≤◌, ◌^◌, [], ◌∷◌, length, map, slice_index, slice_index_or, slice_range, take, vec_len, IfSome};
ghost use Rattle.std.specs.Bool.{OnTrue};
ghost use Rattle.std.specs.List.{flat_map, range_with_len};
ghost use Rattle.std.specs.List.Sorted.{IsNonDecreasing};
ghost use Rattle.fc_lists.specs.Flat.{flat};
ghost use Rattle.fc_lists.specs.Starts.{AreStarts, cut, starts_in};

use std::marker::Model;

/// Lists that are not changed any more, seen as the list of them.
#[derive(Debug, Drop)]
pub struct Lists<T> {
    items: Vec<T>,
    // Where each list starts, and where the last one ends. There is none where each has one item.
    starts: Option<Vec<u32>>,
}

impl<T> Model for Lists<T> {
    ghost use Rattle.std.specs.Prelude.{List};

    ghost Value = { List (List T) };

    ghost use Rattle.fc_lists.specs.Lists.{lists_in, AreLists};

    ghost view = { lists_in };

    ghost invariant = { AreLists };
}

impl<T: Drop> Lists<T> {
    /// The lists that start at these places among the items, the last of which is their end.
    pub fn new(items: Vec<T>, starts: Vec<u32>) -> Lists<T>
        requires { AreStarts starts.items (vec_len items) }
        ensures { result ≡ cut starts.items items.items }
    {
        if counts_up(&starts) {
            Lists {
                items,
                starts: None,
            }
        } else {
            Lists {
                items,
                starts: Some(starts),
            }
        }
    }

    /// How many lists there are.
    pub fn len(&self) -> usize
        ensures { result ≡ length self.now }
    {
        count(&self.starts, self.items.len())
    }

    /// The items of a list.
    pub fn list(&self, at: u32) -> &[T]
        requires { at < length self.now }
        ensures { result.now ≡ slice_index_or self.now at [] }
    {
        let from = start(&self.starts, self.items.len(), at as usize);
        let to = start(&self.starts, self.items.len(), at as usize + 1);
        part(&self.items, from, to)
    }

    /// The items of the lists from one up to but not including another.
    pub fn span(&self, from: u32, to: u32) -> &[T]
        requires order { from ≤ to }
        requires within { to ≤ length self.now }
        ensures { result.now ≡ flat_map (λ list. list) (slice_range self.now from to) }
    {
        let from = start(&self.starts, self.items.len(), from as usize);
        let to = start(&self.starts, self.items.len(), to as usize);
        part(&self.items, from, to)
    }

    /// The items of all lists, one list behind the other.
    pub fn flat(&self) -> &[T]
        ensures { result.now ≡ flat self.now }
    {
        let from = start(&self.starts, self.items.len(), 0);
        part(&self.items, from, self.items.len())
    }

    /// The item of each list, where it is known that each list has exactly one.
    pub fn singles(&self) -> Option<&[T]>
        ensures { IfSome result (λ items. self.now ≡ map (λ item. item ∷ []) items.now) }
    {
        match &self.starts {
            None => Some(&self.items),
            Some(_) => None,
        }
    }

    /// Where the items of a list stand among those of all lists.
    pub fn places(&self, at: u32) -> (u32, u32)
        requires within { at < length self.now }
        requires few { length self.now < 2 ^ 32 }
        ensures start { result.0 ≡ length (flat (take at self.now)) }
        ensures end { result.1 ≡ length (flat (take (at + 1) self.now)) }
    {
        places(&self.starts, self.items.len(), at)
    }
}

// Whether each number is its place.
fn counts_up(numbers: &[u32]) -> bool
    ensures { OnTrue result (numbers.now ≡ range_with_len 0 (length numbers.now)) }
{
    for (place, number) in numbers.iter().enumerate() {
        if *number as usize != place {
            return false;
        }
    }
    true
}

// Where a list starts, of which there are `count` where no starts are kept.
fn start(starts: &Option<Vec<u32>>, count: usize, at: usize) -> usize
    requires { at < length (starts_in starts.now count) }
    ensures { result ≡ slice_index (starts_in starts.now count) at }
{
    match starts {
        None => at,
        Some(starts) => starts[at] as usize,
    }
}

// How many lists there are, which are `count` where no starts are kept.
fn count(starts: &Option<Vec<u32>>, count: usize) -> usize
    requires { 0 < length (starts_in starts.now count) }
    ensures { result + 1 ≡ length (starts_in starts.now count) }
{
    match starts {
        None => count,
        Some(starts) => starts.len() - 1,
    }
}

// How far behind the first start a list starts, of which there are `count` where no starts are kept, and how far behind it the
// next one does.
fn places(starts: &Option<Vec<u32>>, count: usize, at: u32) -> (u32, u32)
    requires rising { IsNonDecreasing (starts_in starts.now count) }
    requires within { at + 1 < length (starts_in starts.now count) }
    requires few { at + 1 < 2 ^ 32 }
    ensures start { let all = starts_in starts.now count in
        result.0 + slice_index all 0 ≡ slice_index all at }
    ensures end { let all = starts_in starts.now count in
        result.1 + slice_index all 0 ≡ slice_index all (at + 1) }
{
    match starts {
        None => (at, at + 1),
        Some(starts) => (
            starts[at as usize] - starts[0],
            starts[at as usize + 1] - starts[0],
        ),
    }
}

// The items from one place up to another.
fn part<T>(items: &[T], from: usize, to: usize) -> &[T]
    requires order { from ≤ to }
    requires within { to ≤ length items.now }
    ensures { result.now ≡ slice_range items.now from to }
{
    &items[from..to]
}
