// Who is asked for a turn, how often, every order of four turns; and workers that count at the same time.
use super::demand;
use super::kinds::{Calls, kinds_in, watched_kinds};
use super::noting::Noting;
use super::searches::{Asked, lines_of};
use fc_search::{FromList, RoundRobin};
use std::alloc::Global;
use std::sync::Arc;
use std::test::Fail;

// What is asked, its lines, who waits at each turn, and how many turns call no kind.
type Row = (Asked, &'static str, u64, u64);

const ROWS: &[Row] = &[
    // A shard of one segment has two turns in the first round, for its root and for its list. The second one offers c alone; in
    // the first search it is not asked for a, and in the second it is, and has one turn more.
    (
        Asked {
            script: r##"{"schema":{"shards":2,"fields":{"cat":"string"}}}
{"add":{"doc":{"id":"1","cat":"a","_childDocuments_":[{"id":"2","cat":"a"},{"id":"3","cat":"a"},{"id":"4","cat":"b"},{"id":"5","cat":"b"}]}}}
{"add":{"doc":{"id":"6","cat":"c","_childDocuments_":[{"id":"7","cat":"c"},{"id":"8","cat":"c"},{"id":"9","cat":"a"}]},"shard":1}}
{"commit":{}}
"##,
            earlier: 1,
            requests: &[
                r#"{"facet":{"c":{"type":"terms","field":"cat","limit":1,"overrequest":0}}}"#,
                r#"{"facet":{"c":{"type":"terms","field":"cat","limit":1,"overrequest":0,"refine":true,"overrefine":0}}}"#,
            ],
        },
        r##"{"facets":{"c":{"buckets":[{"count":3,"val":"a"}]},"count":9},"generations":[1,1],"session":"a"}
{"facets":{"c":{"buckets":[{"count":4,"val":"a"}]},"count":9},"generations":[1,1],"session":"a"}
"##,
        332233222,
        0,
    ),
    // A search of no facet takes one turn of each shard, which calls no kind where the shard has no segment.
    (
        Asked {
            script: r##"{"schema":{"shards":3,"fields":{}}}
{"add":{"doc":{"id":"1"},"shard":1}}
{"commit":{"shard":1}}
"##,
            earlier: 1,
            requests: &["{}"],
        },
        r##"{"facets":{"count":1},"generations":[0,1,0],"session":"a"}
"##,
        764,
        2,
    ),
    // Commits that are made together make one segment, where they have a document. Two segments, of which the first has twice as
    // many documents, are not merged. Over both a kind of each name is called: for the root, for the values, and in their only bucket
    // for the query facet and the gaps.
    (
        Asked {
            script: r##"{"schema":{"shards":1,"fields":{"cat":"string","n":"plong"}}}
{"commit":{}}
{"add":{"doc":{"id":"1","cat":"a","n":1}}}
{"commit":{}}
{"add":{"doc":{"id":"2","cat":"a","n":3}}}
{"commit":{}}
{"add":{"doc":{"id":"3","cat":"a"}}}
{"commit":{}}
"##,
            earlier: 3,
            requests: &[
                r#"{"facet":{"c":{"type":"terms","field":"cat","facet":{"q":{"type":"query","q":"n:1"},"r":{"type":"range","field":"n","start":0,"end":4,"gap":2}}}}}"#,
            ],
        },
        r##"{"facets":{"c":{"buckets":[{"count":3,"q":{"count":1},"r":{"buckets":[{"count":1,"val":0},{"count":1,"val":2}]},"val":"a"}]},"count":3},"generations":[4],"session":"a"}
"##,
        11111111,
        0,
    ),
];

#[test]
fn turns_are_noted(rt: HostRuntime) -> Result<(), Fail> {
    let alloc = rt.alloc();
    for (asked, wanted, noted, idle) in ROWS {
        let calls = Arc::new(alloc, Calls::new(false))?;
        let kinds = watched_kinds(alloc, &calls)?;
        let mut turns = Noting::new(calls);
        let lines = lines_of(&rt, alloc, asked, &kinds, &mut turns, 1)?;
        demand(&lines, wanted)?;
        turns.look();
        assert!(rt;
            turns.noted == *noted && turns.idle == *idle,
            "{}, {}",
            turns.noted,
            turns.idle
        );
    }
    Ok(())
}

// The list of four numbers from 0 and 1 that a number from 0 to 15 spells, twice.
fn list_of(alloc: Global, number: u32) -> Result<Vec<u32>, Fail> {
    let mut list = Vec::new(alloc);
    for at in [0, 1, 2, 3, 0, 1, 2, 3] {
        list.push((number >> at) & 1)?;
    }
    Ok(list)
}

#[test]
fn every_list_of_four(rt: HostRuntime) -> Result<(), Fail> {
    let alloc = rt.alloc();
    let kinds = kinds_in(alloc)?;
    for (asked, wanted, _, _) in ROWS {
        for number in 0..16 {
            let mut turns = FromList::new(list_of(alloc, number)?);
            let lines = lines_of(&rt, alloc, asked, &kinds, &mut turns, 1)?;
            demand(&lines, wanted)?;
        }
    }
    Ok(())
}

// In the first row each of two shards counts, and no call goes on before the other shard's has begun.
#[test]
fn workers_meet(rt: HostRuntime) -> Result<(), Fail> {
    let alloc = rt.alloc();
    let (asked, wanted, _, _) = ROWS.first().ok_or("no row")?;
    let calls = Arc::new(alloc, Calls::new(true))?;
    let kinds = watched_kinds(alloc, &calls)?;
    let mut turns = RoundRobin::new();
    let lines = lines_of(&rt, alloc, asked, &kinds, &mut turns, 2)?;
    demand(&lines, wanted)?;
    assert_eq!(rt; calls.alone(), 0);
    Ok(())
}
