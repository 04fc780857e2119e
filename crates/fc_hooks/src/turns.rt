// Whose turn is next.
ghost use Rattle.std.specs.Prelude.{◌≡◌, ◌<◌, None, Some, drop, length, slice_index};
ghost use Rattle.fc_hooks.specs.Picks.{IsBehind, place_by};

use std::marker::Model;

/// Says, turn after turn, which shard's future does it.
pub trait Turns {
    /// The place of the shard whose turn it is. `waiting` holds the numbers of the shards whose messages are not there yet,
    /// ascending; places count from 0.
    fn next(&mut self, waiting: &[u32]) -> usize
        requires { 0 < length waiting.now }
        ensures { result < length waiting.now };
}

/// Each time the shard behind the last one, round about.
#[derive(Debug, Drop)]
pub struct RoundRobin {
    last: Option<u32>,
}

impl Model for RoundRobin {
    ghost use Rattle.std.specs.Prelude.{Option, ℕ};

    ghost Value = { Option ℕ };

    ghost view = { λ turns. turns.last };
}

impl RoundRobin {
    /// It begins with the first shard.
    pub fn new() -> RoundRobin
        ensures { result ≡ None }
    {
        RoundRobin { last: None }
    }
}

impl Turns for RoundRobin {
    fn next(&mut self, waiting: &[u32]) -> usize
        requires { 0 < length waiting.now }
        ensures there { result < length waiting.now }
        ensures behind { IsBehind self.old waiting.now result }
        ensures last { self.new ≡ Some (slice_index waiting.now result) }
    {
        let place = match self.last {
            Some(last) => place_above(waiting, last),
            None => 0,
        };
        self.last = Some(waiting[place]);
        place
    }
}

// The place of the first number above another; the first place, where there is none.
fn place_above(numbers: &[u32], last: u32) -> usize
    requires { 0 < length numbers.now }
    ensures there { result < length numbers.now }
    ensures first { IsBehind (Some last) numbers.now result }
{
    for (place, number) in numbers.iter().enumerate() {
        if last < *number {
            return place;
        }
    }
    0
}

/// By a list of numbers, each of them once: a number says the place, round about. Behind the last one it is the first
/// place.
#[derive(Debug, Drop)]
pub struct FromList {
    list: Vec<u32>,
    at: usize,
}

impl Model for FromList {
    ghost use Rattle.std.specs.Prelude.{◌≤◌, List, ℕ, drop, vec_len};

    ghost Value = { List ℕ };

    ghost view = { λ turns. drop turns.at turns.list.items };

    ghost invariant = { λ turns. turns.at ≤ vec_len turns.list };
}

impl FromList {
    /// None of the numbers is used yet.
    pub fn new(list: Vec<u32>) -> FromList
        ensures { result ≡ list.items }
    {
        FromList { list, at: 0 }
    }
}

impl Turns for FromList {
    fn next(&mut self, waiting: &[u32]) -> usize
        requires { 0 < length waiting.now }
        ensures there { result < length waiting.now }
        ensures by { result ≡ place_by self.old waiting.now }
        ensures left { self.new ≡ drop 1 self.old }
    {
        match self.list.get(self.at) {
            Some(number) => {
                let place = *number as usize % waiting.len();
                self.at += 1;
                place
            }
            None => 0,
        }
    }
}
