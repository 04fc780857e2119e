// Candidates of two shards, of which each lists another value.
ghost use Rattle.std.specs.Prelude.{◌≡◌, [], IfOk};
ghost use Rattle.fc_spec.specs.messages.Message.{no_partials, no_rows, partial};
ghost use Rattle.fc_spec.specs.requests.Buckets.{value};
ghost use Rattle.fc_base.specs.View.{val_view};
ghost use Rattle.fc_partial.specs.BucketView.{node_view};

use super::documents::{request_of, schema_of};
use fc_base::{Name, Val};
use fc_facet::Kind;
use fc_partial::{Key, PartialBucket, PartialNode, Stats};
use fc_refine::{Candidate, Candidates};
use fc_request::Node;
use std::alloc::Global;
use std::test::Fail;

const REQUEST: &str =
    r#"{"facet":{"c":{"type":"terms","field":"cat","limit":1,"overrequest":0,"refine":true,"overrefine":0}}}"#;

fn value_of(alloc: Global, text: &str) -> Result<Val, Fail> {
    Ok(Val::Text(Name::new(alloc, text)?))
}

// A list of one value, which three documents have.
fn list_of(alloc: Global, val: Val) -> Result<PartialNode, Fail>
    ensures { IfOk result (λ list. node_view list
        ≡ partial (value (val_view val)) (record { count = 3; values = [] }) no_rows no_partials) }
{
    let bucket = PartialBucket {
        key: Key::Value(val),
        stats: Stats {
            count: 3,
            values: Vec::new(alloc),
        },
        nodes: Vec::new(alloc),
    };
    Ok(PartialNode {
        buckets: vec![in alloc; bucket]?,
    })
}

// Those of a terms facet without prefix and without nested nodes; the second shard tells first.
fn chosen(alloc: Global, node: &Node) -> Result<Vec<Candidate>, Fail> {
    let Kind::Terms(terms) = &node.kind else {
        return Err("no terms facet".into());
    };
    if terms.prefix.is_some() || !node.nodes.is_empty() {
        return Err("another facet".into());
    }
    let first = list_of(alloc, value_of(alloc, "a")?)?;
    let second = list_of(alloc, value_of(alloc, "c")?)?;
    let mut candidates = Candidates::new(alloc, node)?;
    candidates.add(1, &second)?;
    candidates.add(0, &first)?;
    Ok(candidates.chosen()?)
}

#[test]
fn the_first_of_two(rt: HostRuntime) -> Result<(), Fail> {
    let alloc = rt.alloc();
    let schema = schema_of(alloc, r#"{"shards":2,"fields":{"cat":"string"}}"#)?;
    let request = request_of(alloc, &schema, REQUEST)?;
    let node = request.root.nodes.first().ok_or("no facet")?;
    let chosen = chosen(alloc, node)?;
    assert!(rt; chosen.len() == 1);
    let one = &chosen[0];
    let a = value_of(alloc, "a")?;
    assert!(rt; one.val == a && one.stats.count == 3 && one.shards.as_slice() == [0].as_slice());
    Ok(())
}
