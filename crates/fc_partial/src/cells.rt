// Statistics by number, for counting.
ghost use Rattle.std.specs.Prelude.{◌≡◌, ◌<◌, ◌++◌, [], length, map, replicate, IfOk, IsTrue};
ghost use Rattle.fc_spec.specs.messages.MessageShape.{values_fit};
ghost use Rattle.fc_spec.specs.requests.Statistics.{stats_over};
ghost use Rattle.fc_base.specs.StatisticView.{stat_view};
ghost use Rattle.fc_partial.specs.Adding.{AddUp};
ghost use Rattle.fc_partial.specs.StatsView.{stats_view};
ghost use Rattle.fc_partial.specs.View.{stat_value_view};
ghost use Rattle.fc_partial.specs.Celled.{cell_at, counted, of_one};

use crate::statistics::combine_values;
use crate::{StatValue, Stats};
use fc_base::{Stat, WantMemory};
use std::alloc::Global;
use std::marker::Model;

/// A count and statistics for each number below a bound, seen as which statistics they are and the list of
/// what each number has.
#[derive(Debug, Drop)]
pub struct Cells {
    stats: Vec<Stat>,
    counts: Vec<u64>,
    // As many for each number as there are statistics, number after number.
    values: Vec<StatValue>,
}

impl Model for Cells {
    ghost use Rattle.fc_partial.specs.Celled.{Celled};
    ghost use Rattle.fc_partial.specs.CellsView.{cells_view, IsEven};

    ghost Value = { Celled };

    ghost view = { cells_view };

    ghost invariant = { IsEven };
}

impl Cells {
    /// Those of no document, for each number below the bound.
    pub fn new(alloc: Global, stats: Vec<Stat>, bound: usize) -> Result<Cells, WantMemory>
        ensures { IfOk result (λ cells. cells ≡ record {
          stats = map stat_view stats.items;
          cells = replicate bound (stats_over (map stat_view stats.items) []);
        }) }
    {
        let mut values = Vec::new(alloc);
        for _number in 0..bound {
            push_neutral(&stats, &mut values)?;
        }
        Ok(Cells {
            stats,
            counts: vec![in alloc; 0; bound]?,
            values,
        })
    }

    /// Combines what the number has with the statistics of one more document.
    pub fn add(&mut self, number: usize, values: &[StatValue])
        requires there { number < length self.old.cells }
        requires shaped { IsTrue (values_fit self.old.stats (map stat_value_view values.now)) }
        requires fits { AddUp (cell_at self.old.cells number)
            (of_one (map stat_value_view values.now)) }
        ensures { self.new ≡ counted self.old number (map stat_value_view values.now) }
    {
        let width = self.stats.len();
        let start = number * width;
        self.counts[number] += 1;
        combine_values(&self.stats, &mut self.values[start..start + width], values);
    }

    /// How many documents the number has.
    pub fn count(&self, number: usize) -> u64
        requires { number < length self.now.cells }
        ensures { result ≡ (cell_at self.now.cells number).count }
    {
        self.counts[number]
    }

    /// What the number has.
    pub fn stats(&self, alloc: Global, number: usize) -> Result<Stats, WantMemory>
        requires { number < length self.now.cells }
        ensures { IfOk result (λ stats. stats_view stats ≡ cell_at self.now.cells number) }
    {
        let width = self.stats.len();
        let start = number * width;
        Ok(Stats {
            count: self.counts[number],
            values: Vec::from_slice(alloc, &self.values[start..start + width])?,
        })
    }
}

// Appends the statistics of no document.
fn push_neutral(stats: &[Stat], values: &mut Vec<StatValue>) -> Result<(), WantMemory>
    ensures { IfOk result (λ _. map stat_value_view values.new.items
        ≡ map stat_value_view values.old.items ++ (stats_over (map stat_view stats.now) []).values) }
{
    for stat in stats {
        values.push(StatValue::neutral(*stat))?;
    }
    Ok(())
}
