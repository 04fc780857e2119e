// Steps between the children and the parents of blocks.
ghost use Rattle.std.specs.Prelude.{◌≡◌, length};
ghost use Rattle.fc_spec.specs.documents.Totals.{document_total};
ghost use Rattle.fc_spec.specs.queries.Query.{all};
ghost use Rattle.fc_spec.specs.requests.DomainSets.{moved_set};
ghost use Rattle.fc_spec.specs.requests.Request.{children, parents};

use fc_docset::DocSet;
use fc_segment::Segment;

/// Makes the set the parents in whose block a position of `docs` stands, be it their own.
pub fn gather(segment: &Segment, docs: &DocSet, into: &mut DocSet)
    requires docs { length docs.now ≡ document_total segment.now.blocks }
    requires length { length into.old ≡ document_total segment.now.blocks }
    ensures set { into.new ≡ moved_set (parents all) segment.now.blocks docs.now }
    ensures length { length into.new ≡ length into.old }
{
    into.clear();
    let mut from = 0;
    while let Some(at) = docs.next_from(from) {
        let parent = segment.parent_of(at);
        into.add(parent);
        from = parent + 1;
    }
}

/// Puts in the place of each parent its children. Children give nothing.
pub fn spread(segment: &Segment, into: &mut DocSet)
    requires { length into.old ≡ document_total segment.now.blocks }
    ensures set { into.new ≡ moved_set (children all) segment.now.blocks into.old }
    ensures length { length into.new ≡ length into.old }
{
    into.and_with(segment.parents());
    let mut from = 0;
    while let Some(parent) = into.next_from(from) {
        let first = segment.first_child(parent);
        into.remove(parent);
        into.add_range(first, parent);
        from = parent + 1;
    }
}
