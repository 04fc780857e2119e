// What a shard's index worker holds.
ghost use Rattle.std.specs.Prelude.{◌≡◌, ◌+◌, ◌-◌, ◌^◌, ◌<◌, ◌≤◌, true, [], map, drop, length, MatchResult, IfOk, All};
ghost use Rattle.std.specs.Arc.{arc_value};
ghost use Rattle.left_right.specs.Sides.{view as view_of};
ghost use Rattle.fc_store.specs.Charters.{last_number, IsBatchOf, IsChartered, KeepsLimits};
ghost use Rattle.fc_store.specs.Rule.{content, known, CanBuild, IsLed, IsNext};

use crate::reader::Seated;
use crate::rule::{Binds, Charted, Known, Publishes, Shown, TakesOver, Tells};
use crate::{Charter, Generation, ShardReader, Told};
use core::mem::replace_with;
use fc_base::WantMemory;
use left_right::writer::Writer;
use std::alloc::Global;
use std::marker::Model;
use std::sync::{Arc, Wait};

type Led = Writer<Shown, Arc<Generation>, Known, Charted>;

/// Publishes the generations of one charter. It is not `Drop`: end it by `finish`.
pub struct ShardWriter {
    writer: Led,
    charter: Charter,
    alloc: Global,
}

impl Model for ShardWriter {
    ghost use Rattle.std.specs.Prelude.{◌≡◌, map, drop};
    ghost use Rattle.std.specs.Arc.{arc_value};
    ghost use Rattle.fc_store.specs.Ends.{Writing};

    ghost Value = { Writing };

    ghost use Rattle.left_right.specs.Sides.{view as view_of};
    ghost use Rattle.fc_store.specs.Rule.{content, writing, CanBuild, IsLed};

    ghost view = { λ s. writing (content s.writer.desk.shown.value) };

    ghost invariant = { λ s. (s.charter ≡ (content s.writer.desk.shown.value).0)
        × CanBuild (content s.writer.desk.shown.value)
        × IsLed (content s.writer.desk.shown.value) (view_of s.writer.desk.place)
        (map arc_value (drop s.writer.behind s.writer.log.items)) };
}

impl ShardWriter {
    /// A writer that has published the start of its charter, with places for so many readers and notes.
    pub(crate) fn open<R: Wait>(
        rt: &R,
        alloc: Global,
        charter: Charter,
        places: usize,
    ) -> Result<ShardWriter, WantMemory>
        requires places { (0 < places) × (places < 2 ^ 32) }
        requires batches { All (IsBatchOf charter.start.schema) charter.later }
        requires limits { KeepsLimits charter }
        ensures { IfOk result (λ writer. writer ≡ record {
          schema = charter.start.schema;
          charter = charter;
          number = charter.start.number;
        }) }
    {
        let second = Shown {
            generation: charter.start()?,
            charter: charter.share()?,
        };
        let first = Shown {
            generation: charter.start()?,
            charter: charter.share()?,
        };
        let writer: Led = Writer::new(alloc, first, second, places)?;
        let (writer, bound) = bind(writer, rt);
        if bound.is_err() {
            writer.take(rt);
            return Err(WantMemory);
        }
        Ok(ShardWriter {
            writer,
            charter,
            alloc,
        })
    }

    // A place at the store that knows what the writer knows. `left_right` may refuse it.
    fn seat(&mut self) -> Result<(Seated, u64), WantMemory>
        ensures same { self.new ≡ self.old }
        ensures bound { IfOk result (λ seat. (view_of seat.0.place).bound ≡ true) }
        ensures schema { IfOk result (λ seat. (view_of seat.0.place).schema ≡ self.old.schema) }
        ensures charter { IfOk result (λ seat. (view_of seat.0.place).charter ≡ self.old.charter) }
        ensures at { IfOk result (λ seat. (view_of seat.0.place).at ≡ self.old.number) }
        ensures number { IfOk result (λ seat. seat.1 ≡ self.old.number) }
    {
        let mut reader = self.writer.factory().reader()?;
        reader.learn::<TakesOver>(self.writer.tell::<Tells>());
        Ok((reader, self.number()))
    }

    /// A reader of what this writer publishes.
    pub(crate) fn reader(&mut self) -> Result<ShardReader, WantMemory>
        ensures same { self.new ≡ self.old }
        ensures knows { IfOk result (λ reader. reader ≡ record {
          schema = self.old.schema;
          charter = self.old.charter;
          least = self.old.number;
        }) }
    {
        let (reader, number) = self.seat()?;
        Ok(ShardReader::of(reader, number))
    }

    /// A note of the number that was published last.
    pub fn tell(&mut self) -> Result<Told, WantMemory>
        ensures same { self.new ≡ self.old }
        ensures told { IfOk result (λ told. told ≡ self.old) }
    {
        let (reader, number) = self.seat()?;
        Ok(Told::of(reader, number))
    }

    /// The number of the generation that was published last.
    pub fn number(&self) -> u64
        ensures { result ≡ self.now.number }
    {
        self.writer.published().generation.number()
    }

    /// How many generations of the charter are not published yet.
    pub fn commits_left(&self) -> u32
        ensures left { result ≡ last_number self.now.charter - self.now.number }
        ensures within { self.now.number ≤ last_number self.now.charter }
    {
        (self.charter.last() - self.number()) as u32
    }

    /// Publishes the charter's next generation, whether its batch is empty or not, and answers its
    /// number. It may wait for a reader that is inside its pin. After want of memory the number and what
    /// readers see are as before.
    pub fn commit_next<R: Wait>(&mut self, rt: &R) -> Result<u64, WantMemory>
        requires { self.old.number < last_number self.old.charter }
        ensures { MatchResult result
            (λ number. (number ≡ self.old.number + 1)
            × (self.new ≡ record self.old { number = number }))
            (λ _. self.new ≡ self.old) }
    {
        prepare(&mut self.writer, &self.charter, self.alloc)?;
        let published = replace_with(
            &mut self.writer,
            rt,
            |writer: Led, rt: &R| publish(writer, rt),
        );
        published?;
        Ok(self.number())
    }

    /// Ends the store, and answers the generation that was published last. It may wait for a reader that
    /// is inside its pin.
    pub fn finish<R: Wait>(self, rt: &R) -> Result<Arc<Generation>, WantMemory>
        ensures schema { IfOk result (λ last. (arc_value last).schema ≡ self.schema) }
        ensures charted { IfOk result (λ last. IsChartered self.charter (arc_value last)) }
        ensures number { IfOk result (λ last. (arc_value last).number ≡ self.number) }
    {
        let ShardWriter {
            writer,
            charter: _charter,
            alloc: _,
        } = self;
        Ok(Box::into_inner(writer.take(rt)).generation)
    }
}

// The first step of a writer, which learns what is published.
fn bind<R: Wait>(writer: Led, rt: &R) -> (Led, Result<(), WantMemory>)
    requires charted { IsChartered (content writer.desk.shown.value).0
        (content writer.desk.shown.value).1 }
    requires none { drop writer.behind writer.log.items ≡ [] }
    ensures led { IfOk result.1 (λ _. IsLed (content result.0.desk.shown.value)
        (view_of result.0.desk.place) (map arc_value (drop result.0.behind result.0.log.items))) }
    ensures same { IfOk result.1 (λ _.
        content result.0.desk.shown.value ≡ content writer.desk.shown.value) }
{
    let (writer, bound) = writer.publish_as::<Binds, R>(rt);
    (writer, bound.map_err(|_| WantMemory))
}

// Publishes what waits.
fn publish<R: Wait>(writer: Led, rt: &R) -> (Led, Result<(), WantMemory>)
    requires led { IsLed (content writer.desk.shown.value) (view_of writer.desk.place)
        (map arc_value (drop writer.behind writer.log.items)) }
    requires some { 0 < length (drop writer.behind writer.log.items) }
    ensures led { IsLed (content result.0.desk.shown.value) (view_of result.0.desk.place)
        (map arc_value (drop result.0.behind result.0.log.items)) }
    ensures charter { (content result.0.desk.shown.value).0 ≡ (content writer.desk.shown.value).0 }
    ensures schema { (content result.0.desk.shown.value).1.schema
        ≡ (content writer.desk.shown.value).1.schema }
    ensures number { MatchResult result.1
        (λ _. (content result.0.desk.shown.value).1.number
        ≡ (content writer.desk.shown.value).1.number + 1)
        (λ _. content result.0.desk.shown.value ≡ content writer.desk.shown.value) }
{
    let (writer, published) = writer.publish_as::<Publishes, R>(rt);
    (writer, published.map_err(|_| WantMemory))
}

// Has the next generation wait, if none waits yet.
fn prepare(writer: &mut Led, charter: &Charter, alloc: Global) -> Result<(), WantMemory>
    requires charter { charter.now ≡ (content writer.old.desk.shown.value).0 }
    requires batches { CanBuild (content writer.old.desk.shown.value) }
    requires led { IsLed (content writer.old.desk.shown.value) (view_of writer.old.desk.place)
        (map arc_value (drop writer.old.behind writer.old.log.items)) }
    requires left { (content writer.old.desk.shown.value).1.number < last_number charter.now }
    ensures same { writer.new.desk ≡ writer.old.desk }
    ensures next { IsNext (content writer.new.desk.shown.value)
        (map arc_value (drop writer.new.behind writer.new.log.items)) }
    ensures some { IfOk result (λ _. 0 < length (drop writer.new.behind writer.new.log.items)) }
{
    if writer.has_pending_operations() {
        return Ok(());
    }
    let last: &Generation = &writer.published().generation;
    let next = Generation::next(alloc, last, charter.batch(last.number()))?;
    writer.append(next).map_err(|_| WantMemory)
}
