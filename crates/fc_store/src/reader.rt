// What a session worker holds of a shard.
ghost use Rattle.std.specs.Prelude.{◌≡◌, max, true, MatchResult};
ghost use Rattle.std.specs.Arc.{arc_value};
ghost use Rattle.left_right.specs.Sides.{view as view_of};
ghost use Rattle.fc_store.specs.Ends.{IsNoLower, Pinning, PinsGeneration};
ghost use Rattle.fc_store.specs.Rule.{noting, pinning};

use crate::Generation;
use crate::rule::{Charted, Known, Pins, Shown};
use core::mem::replace_with;
use fc_base::WantMemory;
use left_right::reader::Reader;
use std::marker::Model;
use std::sync::Arc;

pub(crate) type Seated = Reader<Shown, Known, Charted>;

/// Takes the published generations of one shard.
#[derive(Drop)]
pub struct ShardReader {
    reader: Seated,
    least: u64,
}

impl Model for ShardReader {
    ghost use Rattle.std.specs.Prelude.{◌≡◌, true};
    ghost use Rattle.fc_store.specs.Ends.{Pinning};

    ghost Value = { Pinning };

    ghost use Rattle.left_right.specs.Sides.{view as view_of};
    ghost use Rattle.fc_store.specs.Rule.{pinning};

    ghost view = { λ s. pinning (view_of s.reader.place) };

    ghost invariant = { λ s. ((view_of s.reader.place).bound ≡ true)
        × (s.least ≡ (view_of s.reader.place).at) };
}

impl ShardReader {
    /// A reader that knows of this number.
    pub(crate) fn of(reader: Seated, number: u64) -> ShardReader
        requires bound { (view_of reader.place).bound ≡ true }
        requires number { number ≡ (view_of reader.place).at }
        ensures { result ≡ pinning (view_of reader.place) }
    {
        ShardReader {
            reader,
            least: number,
        }
    }

    /// Takes in a note of a writer of the same charter: what it pins from now on is no lower.
    pub fn learn(&mut self, told: Told) -> Result<(), WantMemory>
        requires schema { told.schema ≡ self.old.schema }
        requires charter { told.charter ≡ self.old.charter }
        ensures { MatchResult result
            (λ _. self.new ≡ record self.old { least = max self.old.least told.number })
            (λ _. self.new ≡ self.old) }
    {
        if told.number > self.least {
            let Told { reader, number } = told;
            self.reader = reader;
            self.least = number;
        }
        Ok(())
    }

    /// The generation that is published now. It waits for nobody. After want of memory the reader may
    /// pin again.
    pub fn pin(&mut self) -> Result<Arc<Generation>, WantMemory>
        ensures { MatchResult result
            (λ generation. PinsGeneration self.old (arc_value generation) self.new)
            (λ _. IsNoLower self.old self.new) }
    {
        let (least, taken) = replace_with(
            &mut self.reader,
            self.least,
            |reader: Seated, least: u64| take(reader, least),
        );
        self.least = least;
        taken
    }
}

/// A note of a number that was published. It is a reader that has taken over what the writer knew.
#[derive(Drop)]
pub struct Told {
    reader: Seated,
    number: u64,
}

impl Model for Told {
    ghost use Rattle.std.specs.Prelude.{◌≡◌, true};
    ghost use Rattle.fc_store.specs.Ends.{Writing};

    ghost Value = { Writing };

    ghost use Rattle.left_right.specs.Sides.{view as view_of};
    ghost use Rattle.fc_store.specs.Rule.{noting};

    ghost view = { λ s. noting (view_of s.reader.place) };

    ghost invariant = { λ s. ((view_of s.reader.place).bound ≡ true)
        × (s.number ≡ (view_of s.reader.place).at) };
}

impl Told {
    /// A note of this number.
    pub(crate) fn of(reader: Seated, number: u64) -> Told
        requires bound { (view_of reader.place).bound ≡ true }
        requires number { number ≡ (view_of reader.place).at }
        ensures { result ≡ noting (view_of reader.place) }
    {
        Told { reader, number }
    }
}

// The published generation, with its number, which is known even where sharing is refused.
fn take(reader: Seated, least: u64) -> (Seated, (u64, Result<Arc<Generation>, WantMemory>))
    requires bound { (view_of reader.place).bound ≡ true }
    requires least { least ≡ (view_of reader.place).at }
    ensures bound { (view_of result.0.place).bound ≡ true }
    ensures number { result.1.0 ≡ (view_of result.0.place).at }
    ensures taken { let old : Pinning = pinning (view_of reader.place) in
        let new : Pinning = pinning (view_of result.0.place) in
        MatchResult result.1.1
        (λ generation. PinsGeneration old (arc_value generation) new)
        (λ _. IsNoLower old new) }
{
    match reader.enter_as::<Pins>() {
        Ok(reading) => {
            let generation = &reading.get().generation;
            let number = generation.number();
            let shared = Arc::try_clone(generation);
            (reading.leave(), (number, shared.map_err(|_| WantMemory)))
        }
        Err(reader) => (reader, (least, Err(WantMemory))),
    }
}
