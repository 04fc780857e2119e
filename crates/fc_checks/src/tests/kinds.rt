// Kinds of the tests' own behind the interface: they leave their work to others, count how often they are called, and may wait
// until two calls have begun.
ghost use Rattle.std.specs.Prelude.{IfOk, map};
ghost use Rattle.fc_kind.specs.Names.{Covers};

use fc_base::WantMemory;
use fc_date_range::DateRangeKind;
use fc_docset::DocSet;
use fc_kind::{FacetKind, KindName, covers, the_kind};
use fc_partial::{Key, Tally};
use fc_range::{QueryKind, RangeKind};
use fc_request::Node;
use fc_segment::Segment;
use fc_terms::TermsKind;
use std::alloc::Global;
use std::sync::Arc;
use std::sync::atomic::{AtomicU64, Ordering};
use std::test::Fail;

// How often a call looks whether another one has begun.
const LOOKS: u64 = 50_000_000;

// The calls of kinds that have begun, and those that waited for another in vain.
#[derive(Drop)]
pub(super) struct Calls {
    begun: AtomicU64,
    alone: AtomicU64,
    meet: bool,
}

impl Calls {
    // Before the first call, and whether the first is to wait for the second.
    pub(super) fn new(meet: bool) -> Calls {
        Calls {
            begun: AtomicU64::new(0),
            alone: AtomicU64::new(0),
            meet,
        }
    }

    pub(super) fn begun(&self) -> u64 {
        self.begun.load(Ordering::SeqCst)
    }

    pub(super) fn alone(&self) -> u64 {
        self.alone.load(Ordering::SeqCst)
    }

    fn begin(&self) {
        self.begun.fetch_add(1, Ordering::SeqCst);
        if self.meet {
            self.wait();
        }
    }

    fn wait(&self) {
        for _ in 0..LOOKS {
            if self.begun() >= 2 {
                return;
            }
        }
        self.alone.fetch_add(1, Ordering::SeqCst);
    }
}

#[derive(Drop)]
struct Watched<K> {
    inner: K,
    calls: Arc<Calls>,
}

impl<K: FacetKind> FacetKind for Watched<K> {
    ghost name = { λ watched. K.name watched.inner };

    fn kind(&self) -> KindName {
        self.inner.kind()
    }

    fn collect(
        &self,
        alloc: Global,
        segment: &Segment,
        docs: &DocSet,
        node: &Node,
        into: &mut Tally,
    ) -> Result<(), WantMemory> {
        self.calls.begin();
        self.inner.collect(alloc, segment, docs, node, into)
    }

    fn select(
        &self,
        alloc: Global,
        segment: &Segment,
        docs: &DocSet,
        node: &Node,
        key: &Key,
        into: &mut DocSet,
    ) -> Result<(), WantMemory> {
        self.calls.begin();
        self.inner.select(alloc, segment, docs, node, key, into)
    }
}

fn with_calls<K: FacetKind>(inner: K, calls: &Arc<Calls>) -> Result<Watched<K>, Fail> {
    let calls = Arc::try_clone(calls)?;
    Ok(Watched { inner, calls })
}

// A kind of each name, not in the order of names.
pub(super) fn watched_kinds(
    alloc: Global,
    calls: &Arc<Calls>,
) -> Result<Vec<Box<dyn FacetKind>>, Fail>
    ensures { IfOk result (λ kinds. Covers (map name kinds.items)) }
{
    let mut kinds: Vec<Box<dyn FacetKind>> = Vec::new(alloc);
    kinds.push(Box::new(alloc, with_calls(RangeKind, calls)?)?)?;
    kinds.push(Box::new(alloc, with_calls(QueryKind, calls)?)?)?;
    kinds.push(Box::new(alloc, with_calls(DateRangeKind, calls)?)?)?;
    if covers(&kinds) {
        return Err("a name that none of the kinds has".into());
    }
    kinds.push(Box::new(alloc, with_calls(TermsKind, calls)?)?)?;
    if covers(&kinds) {
        Ok(kinds)
    } else {
        Err("a name without a kind".into())
    }
}

// The same, whose calls nobody reads.
pub(super) fn kinds_in(alloc: Global) -> Result<Vec<Box<dyn FacetKind>>, Fail>
    ensures { IfOk result (λ kinds. Covers (map name kinds.items)) }
{
    let calls = Arc::new(alloc, Calls::new(false))?;
    Ok(watched_kinds(alloc, &calls)?)
}

#[test]
fn each_name_is_found(rt: HostRuntime) -> Result<(), Fail> {
    let alloc = rt.alloc();
    let kinds = kinds_in(alloc)?;
    for name in [
        KindName::Terms,
        KindName::Range,
        KindName::Query,
        KindName::DateRange,
    ] {
        assert!(rt; the_kind(&kinds, name).kind() == name, "{name:?}");
    }
    Ok(())
}
