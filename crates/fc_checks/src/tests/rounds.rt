// A search in three rounds: through the coordinator, by hand, and what is booked of it.
use super::documents::{request_of, schema_of};
use super::kinds::kinds_in;
use super::messages::{is_ask, message_of};
use super::{demand, written};
use fc_base::Name;
use fc_coord::Coord;
use fc_reply::reply_line;
use fc_run::{ListBook, NoGate};
use std::alloc::Global;
use std::test::Fail;

const SCHEMA: &str = r#"{"shards":2,"fields":{"cat":"string","size":"string"}}"#;

const REQUEST: &str =
    r#"{"facet":{"cats":{"type":"terms","field":"cat","limit":1,"overrequest":0,"overrefine":0,"refine":true,"facet":{"sizes":{"type":"terms","field":"size","limit":1,"overrequest":0,"overrefine":0,"refine":true}}}}}"#;

// A shard, what it is asked for, and what it tells.
type Told = (u32, &'static [&'static str], &'static [(&'static str, u64)]);

// The first shard has x with s twice and with l, the second x with l twice and y with m three times. The second did not list
// x and tells l there when it is asked; then the first, which listed s there, is asked for l.
const ROUNDS: &[&[Told]] = &[
    &[
        (0, &[], &[("", 3), ("x", 3), ("s", 2)]),
        (1, &[], &[("", 5), ("y", 3), ("m", 3)]),
    ],
    &[(1, &["x"], &[("x", 2), ("l", 2)])],
    &[(0, &["x", "l"], &[("l", 1)])],
];

const LINE: &str =
    r#"{"facets":{"cats":{"buckets":[{"count":5,"sizes":{"buckets":[{"count":3,"val":"l"}]},"val":"x"}]},"count":8},"generations":[1],"session":"a"}
"#;

// Tells a message of a shard that is awaited, is asked for this, and whose message fits.
fn tell(alloc: Global, coord: &mut Coord, told: &Told) -> Result<(), Fail> {
    let (shard, asked, buckets) = *told;
    if !coord.awaits(shard) || !is_ask(coord.ask(shard), asked) {
        return Err("another shard, or another ask".into());
    }
    let message = message_of(alloc, buckets)?;
    if !coord.fits(shard, &message) || coord.spent() {
        return Err("a message that cannot be told".into());
    }
    coord.take(shard, message)?;
    Ok(())
}

// The line of the reply, as of one generation.
pub(super) fn line_of(alloc: Global, coord: Coord) -> Result<String, Fail> {
    if !coord.ready() {
        return Err("not ready".into());
    }
    let reply = coord.into_reply()?;
    let line = reply_line(alloc, &reply, &[1], &Name::new(alloc, "a")?)?;
    Ok(String::from_utf8_lossy(alloc, &line)?)
}

// The messages of a round come in the order of the shards, or the last one first.
fn line_told(alloc: Global, reversed: bool) -> Result<String, Fail> {
    let schema = schema_of(alloc, SCHEMA)?;
    let request = request_of(alloc, &schema, REQUEST)?;
    let mut coord = Coord::begin(alloc, &request, 2)?;
    for (number, round) in ROUNDS.iter().enumerate() {
        if coord.ready() || coord.round() as usize != number + 1 {
            return Err("another round".into());
        }
        for at in 0..round.len() {
            let place = if reversed { round.len() - 1 - at } else { at };
            tell(alloc, &mut coord, &round[place])?;
        }
    }
    line_of(alloc, coord)
}

#[test]
fn three_rounds(rt: HostRuntime) -> Result<(), Fail> {
    for reversed in [false, true] {
        demand(&line_told(rt.alloc(), reversed)?, LINE)?;
    }
    Ok(())
}

const SCRIPT: &str = r#"{"schema":{"shards":2,"fields":{"cat":"string","size":"string"}}}
{"add":{"doc":{"id":"1","cat":"x","size":"s","_childDocuments_":[{"id":"2","cat":"x","size":"s"},{"id":"3","cat":"x","size":"l"}]}}}
{"add":{"doc":{"id":"4","cat":"x","size":"l","_childDocuments_":[{"id":"5","cat":"x","size":"l"},{"id":"6","cat":"y","size":"m"},{"id":"7","cat":"y","size":"m"},{"id":"8","cat":"y","size":"m"}]},"shard":1}}
{"commit":{}}
{"sync":{}}
{"search":{"session":"a","request":{"facet":{"cats":{"type":"terms","field":"cat","limit":1,"overrequest":0,"overrefine":0,"refine":true,"facet":{"sizes":{"type":"terms","field":"size","limit":1,"overrequest":0,"overrefine":0,"refine":true}}}}}}}
"#;

// Round, shard and bytes of each message: 9, for a bucket of all documents 25, for a list 8, for a bucket of a text of one byte 34.
#[test]
fn what_is_sent_is_booked(rt: HostRuntime) -> Result<(), Fail> {
    let alloc = rt.alloc();
    let mut book = ListBook::new(alloc)?;
    written(&rt, alloc, SCRIPT, &kinds_in(alloc)?, &NoGate, &mut book)?;
    let sent = book.get(0).ok_or("nothing is booked")?;
    assert!(rt; sent.len() == 4 && book.get(1).is_none());
    let wanted = [(1, 0, 118), (1, 1, 118), (2, 1, 85), (3, 0, 43)];
    for (found, wanted) in sent.iter().zip(wanted) {
        assert!(rt; (found.round, found.shard, found.length) == wanted);
    }
    Ok(())
}
