// Workers go on beside each other: a gate holds the commits and a session until the other has moved.
use super::kinds::kinds_in;
use super::written;
use fc_run::{Gate, NoBook};
use std::hint::spin_loop;
use std::sync::atomic::{AtomicU64, Ordering};
use std::test::Fail;

// How often a held worker looks.
const LOOKS: u32 = 100_000_000;

// Holds each commit until session 0 has made the reply of its number, and then this session until the commit is made.
#[derive(Drop)]
struct Meeting {
    commits: u64,
    replied: AtomicU64,
    committed: AtomicU64,
    late: AtomicU64,
}

impl Meeting {
    fn new(commits: u64) -> Meeting {
        Meeting {
            commits,
            replied: AtomicU64::new(0),
            committed: AtomicU64::new(0),
            late: AtomicU64::new(0),
        }
    }

    // Looks until the number is reached, and notes where it looked in vain.
    fn hold(&self, reached: &AtomicU64, number: u64) {
        for _ in 0..LOOKS {
            if number <= reached.load(Ordering::SeqCst) {
                return;
            }
            spin_loop();
        }
        self.late.fetch_add(1, Ordering::SeqCst);
    }
}

impl Gate for Meeting {
    fn before_commit(&self, _shard: u32, number: u64) {
        self.hold(&self.replied, number);
    }

    fn after_commit(&self, _shard: u32, number: u64) {
        self.committed.store(number, Ordering::SeqCst);
    }

    fn after_reply(&self, session: u32, number: u64) {
        if session == 0 && number <= self.commits {
            self.replied.store(number, Ordering::SeqCst);
            self.hold(&self.committed, number);
        }
    }
}

// How many commits the first phase has, the script, and what each of its lines may be.
type Row = (u64, &'static str, &'static [&'static [&'static str]]);

const ROWS: &[Row] = &[
    // Session a's first reply is made before the commit and the second after it. Nobody holds session b.
    (
        1,
        r#"{"schema":{"shards":1,"fields":{"cat":"string"}}}
{"add":{"doc":{"id":"1","cat":"a"}}}
{"commit":{}}
{"search":{"session":"a","request":{}}}
{"search":{"session":"a","request":{}}}
{"search":{"session":"b","request":{}}}
{"sync":{}}
{"search":{"session":"a","request":{}}}
"#,
        &[
            &[r#"{"facets":{"count":0},"generations":[0],"session":"a"}"#],
            &[r#"{"facets":{"count":1},"generations":[1],"session":"a"}"#],
            &[
                r#"{"facets":{"count":0},"generations":[0],"session":"b"}"#,
                r#"{"facets":{"count":1},"generations":[1],"session":"b"}"#,
            ],
            &[r#"{"facets":{"count":1},"generations":[1],"session":"a"}"#],
        ],
    ),
    // Between two of the replies there is one commit.
    (
        3,
        r#"{"schema":{"shards":1,"fields":{"cat":"string"}}}
{"add":{"doc":{"id":"1","cat":"a"}}}
{"commit":{}}
{"add":{"doc":{"id":"2","cat":"a"}}}
{"commit":{}}
{"add":{"doc":{"id":"3","cat":"a"}}}
{"commit":{}}
{"search":{"session":"a","request":{}}}
{"search":{"session":"a","request":{}}}
{"search":{"session":"a","request":{}}}
{"search":{"session":"a","request":{}}}
"#,
        &[
            &[r#"{"facets":{"count":0},"generations":[0],"session":"a"}"#],
            &[r#"{"facets":{"count":1},"generations":[1],"session":"a"}"#],
            &[r#"{"facets":{"count":2},"generations":[2],"session":"a"}"#],
            &[r#"{"facets":{"count":3},"generations":[3],"session":"a"}"#],
        ],
    ),
];

// Fails where a line is none of those that it may be, or where there are more lines or fewer.
fn demand_lines(found: &str, wanted: &[&[&str]]) -> Result<(), Fail> {
    let mut lines = found.lines();
    for choices in wanted {
        let line = lines.next().ok_or("a line is missing")?;
        if !choices.iter().any(|choice| *choice == line) {
            return Err(Fail::new(format_args!("{line}")));
        }
    }
    match lines.next() {
        Some(line) => Err(Fail::new(format_args!("{line} is too many"))),
        None => Ok(()),
    }
}

#[test]
fn workers_go_on_beside_each_other(rt: HostRuntime) -> Result<(), Fail> {
    let alloc = rt.alloc();
    let kinds = kinds_in(alloc)?;
    for (commits, script, wanted) in ROWS {
        let gate = Meeting::new(*commits);
        let found = written(&rt, alloc, script, &kinds, &gate, &mut NoBook)?;
        assert_eq!(rt; gate.late.load(Ordering::SeqCst), 0, "{commits}");
        demand_lines(&found, wanted)?;
    }
    Ok(())
}
