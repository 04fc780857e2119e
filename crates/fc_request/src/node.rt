// Nodes of a request.
ghost use Rattle.std.specs.Prelude.{◌≡◌, IfOk, map, option_map};
ghost use Rattle.fc_spec.specs.requests.Request.{stats_of};
ghost use Rattle.fc_base.specs.StatisticView.{stat_view};

use fc_base::{Name, Stat, WantMemory};
use fc_facet::{Domain, Kind};
use std::alloc::Global;

/// A facet with the nodes nested in it, or a statistic, of which only the name and the kind are looked at.
#[derive(Debug, Drop)]
pub struct Node {
    pub name: Name,
    pub domain: Domain,
    pub kind: Kind,
    /// In the byte order of their names, which differ; but what shows the number of a facet's buckets stands behind that
    /// facet, under its name.
    pub nodes: Vec<Node>,
}

impl Node {
    ghost use Rattle.fc_request.specs.NodeView.{node_view, inner_view};
    ghost use Rattle.fc_request.specs.NodeStatistics.{statistic_of_node};

    // What it asks, where it is a statistic.
    pub(crate) fn stat(&self) -> Option<Stat>
        ensures { option_map stat_view result ≡ statistic_of_node (node_view self.now).1 }
    {
        match &self.kind {
            Kind::Stat(stat) => Some(*stat),
            _ => None,
        }
    }

    /// The statistics that are nested in it, in their order.
    pub fn stats(&self, alloc: Global) -> Result<Vec<Stat>, WantMemory>
        ensures { IfOk result (λ stats. map stat_view stats.items ≡ stats_of (inner_view self.now)) }
    {
        let mut stats = Vec::new(alloc);
        for node in &self.nodes {
            if let Some(stat) = node.stat() {
                stats.push(stat)?;
            }
        }
        Ok(stats)
    }
}
