// What exact facets print: found in three rounds by hand, and put together again from query facets in their place.
use super::demand;
use super::documents::{request_of, schema_of};
use super::messages::{is_want, message_of};
use fc_base::{Name, Val};
use fc_exact::{ExactAsk, ExactCore};
use fc_replaced::{has_exact, only_exact, replaced, restored};
use fc_reply::{Reply, ReplyBody, ReplyBucket, ReplyFacet, reply_line};
use std::alloc::Global;
use std::test::Fail;

const SCHEMA: &str = r#"{"shards":2,"fields":{"cat":"string"}}"#;

const REQUEST: &str =
    r#"{"facet":{"c":{"type":"terms","field":"cat","limit":1,"overrequest":0,"refine":"exact","missing":true,"facet":{"n":{"type":"terms","field":"cat"}}}}}"#;

// A shard, the count from which it is asked for values, or the value that it is asked for, and what it tells.
type Told = (
    u32,
    u64,
    &'static [&'static str],
    &'static [(&'static str, u64)],
);

// The first shard has x three times and y once, the second y three times. Three documents of two shards: each is asked for what two of
// its documents have. Then each is asked for the value that only the other listed.
const ROUNDS: &[&[Told]] = &[
    &[
        (0, 0, &[], &[("", 4), ("x", 3)]),
        (1, 0, &[], &[("", 3), ("y", 3)]),
    ],
    &[
        (0, 2, &[], &[("", 4), ("x", 3)]),
        (1, 2, &[], &[("", 3), ("y", 3)]),
    ],
    &[(0, 0, &["y"], &[("y", 1)]), (1, 0, &["x"], &[("x", 0)])],
];

// Whether values are asked for from this count on, or one such value; else what a shard offers.
fn is_asked(ask: &ExactAsk, least: u64, way: &[&str]) -> bool {
    match ask {
        ExactAsk::First => least == 0 && way.is_empty(),
        ExactAsk::Least(counts) => counts.as_slice() == [least].as_slice(),
        ExactAsk::More(wants) => wants.len() == 1 && is_want(&wants[0], way),
    }
}

// Tells a message of a shard that is awaited and is asked for this.
fn tell(alloc: Global, core: &mut ExactCore<'_>, told: &Told) -> Result<(), Fail> {
    let (shard, least, way, buckets) = *told;
    if !core.awaits(shard) || !is_asked(core.ask(shard), least, way) {
        return Err("another shard, or another ask".into());
    }
    let message = message_of(alloc, buckets)?;
    if core.spent() {
        return Err("a core that was spent".into());
    }
    core.take(shard, message)?;
    Ok(())
}

// The top values, one list for each exact facet.
fn tops_of(core: ExactCore<'_>) -> Result<Vec<Vec<Val>>, Fail> {
    if !core.ready() {
        return Err("not ready".into());
    }
    Ok(core.into_tops()?)
}

#[test]
fn a_top_value_in_three_rounds(rt: HostRuntime) -> Result<(), Fail> {
    let alloc = rt.alloc();
    let schema = schema_of(alloc, SCHEMA)?;
    let request = only_exact(alloc, &request_of(alloc, &schema, REQUEST)?)?;
    let mut core = ExactCore::begin(alloc, &request, 2)?;
    for (number, round) in ROUNDS.iter().enumerate() {
        assert!(rt; !core.ready() && core.round() as usize == number + 1);
        for told in round.iter() {
            tell(alloc, &mut core, told)?;
        }
    }
    let tops = tops_of(core)?;
    let y = Val::Text(Name::new(alloc, "y")?);
    assert!(rt; tops.len() == 1 && tops[0].as_slice() == [y].as_slice());
    Ok(())
}

// A reply of query facets of one name, with these counts.
fn reply_of(alloc: Global, counts: &[u64]) -> Result<Reply, Fail> {
    let mut facets = Vec::new(alloc);
    for count in counts {
        let bucket = ReplyBucket {
            val: None,
            count: *count,
            facets: Vec::new(alloc),
        };
        facets.push(ReplyFacet {
            name: Name::new(alloc, "c")?,
            body: ReplyBody::One(bucket),
        })?;
    }
    Ok(Reply {
        root: ReplyBucket {
            val: None,
            count: 9,
            facets,
        },
    })
}

const LINE: &str =
    r#"{"facets":{"c":{"buckets":[{"count":4,"val":"y"}],"missing":{"count":2}},"count":9},"generations":[1],"session":"a"}
"#;

#[test]
fn a_reply_is_put_together_again(rt: HostRuntime) -> Result<(), Fail> {
    let alloc = rt.alloc();
    let schema = schema_of(alloc, SCHEMA)?;
    let request = request_of(alloc, &schema, REQUEST)?;
    let vals = vec![in alloc; Val::Text(Name::new(alloc, "y")?)]?;
    let tops = vec![in alloc; vals]?;
    let asked = replaced(alloc, &request, &tops)?;
    // One for y and one for the documents without a value, each with what is nested.
    assert!(rt; has_exact(&request) && !has_exact(&asked) && asked.root.nodes.len() == 2);
    assert!(rt; asked.root.nodes.iter().all(|node| node.nodes.len() == 1));
    let reply = restored(alloc, &request, &tops, reply_of(alloc, &[4, 2])?)?;
    let line = reply_line(alloc, &reply, &[1], &Name::new(alloc, "a")?)?;
    demand(&String::from_utf8_lossy(alloc, &line)?, LINE)
}
