// Public calls that the program does not make.
ghost use Rattle.std.specs.Bool.{IsTrue};
ghost use Rattle.fc_spec.specs.documents.IntegerTexts.{is_long};
ghost use Rattle.fc_spec.specs.requests.Gaps.{last_end};
ghost use Rattle.fc_facet.specs.KindView.{range_view};
ghost use Rattle.fc_facet.specs.RangeGaps.{HasFewGaps};

use super::documents::{request_of, schema_of};
use super::messages::message_of;
use fc_base::FieldId;
use fc_docset::DocSet;
use fc_facet::Range;
use fc_range::bounds;
use fc_refine::{Ask, shaped};
use fc_told::ToldBucket;
use std::alloc::Global;
use std::process::Abort;
use std::test::Fail;

fn check_ends(
    rt: &impl Abort,
    alloc: Global,
    range: &Range,
    wanted: &[(i64, i64)],
) -> Result<(), Fail>
    requires few { HasFewGaps (range_view range.now) }
    requires last { IsTrue (is_long (last_end (range_view range.now))) }
{
    let ends = bounds(alloc, range)?;
    assert!(rt; ends.len() == wanted.len());
    for (end, wanted) in ends.iter().zip(wanted) {
        assert!(rt; (end.low, end.high) == *wanted);
    }
    Ok(())
}

#[test]
fn ends_of_gaps(rt: HostRuntime) -> Result<(), Fail> {
    let mut range = Range {
        field: FieldId(1),
        start: 0,
        end: 10,
        gap: 4,
        hardend: false,
        before: false,
        after: false,
        between: false,
        lower: true,
        upper: false,
        edge: false,
        outer: false,
    };
    check_ends(&rt, rt.alloc(), &range, &[(0, 4), (4, 8), (8, 12)])?;
    range.hardend = true;
    check_ends(&rt, rt.alloc(), &range, &[(0, 4), (4, 8), (8, 10)])
}

#[test]
fn each_position(rt: HostRuntime) -> Result<(), Fail> {
    let full = DocSet::full(rt.alloc(), 3)?;
    let positions: Vec<u32> = full.iter().collect(rt.alloc())?;
    assert!(rt; positions.as_slice() == [0, 1, 2].as_slice());
    Ok(())
}

#[test]
fn messages_fit(rt: HostRuntime) -> Result<(), Fail> {
    let alloc = rt.alloc();
    let schema = schema_of(alloc, r#"{"shards":1,"fields":{}}"#)?;
    let request = request_of(alloc, &schema, "{}")?;
    assert!(rt; !shaped(&request, &Ask::First, &message_of(alloc, &[("a", 5)])?));
    let nodes = &request.root.nodes;
    let mut told = ToldBucket::new(alloc);
    told.tell(alloc, nodes, 0, Ask::First, message_of(alloc, &[("", 5)])?)?;
    for (count, fits) in [(u64::MAX - 5, true), (u64::MAX - 4, false)] {
        let message = message_of(alloc, &[("", count)])?;
        assert!(rt; told.fits(nodes, &Ask::First, &message) == fits, "{count}");
    }
    Ok(())
}
