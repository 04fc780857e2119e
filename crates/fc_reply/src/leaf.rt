// Writing values, numbers of buckets, and buckets with no facets.
ghost use Rattle.std.specs.Prelude.{codes, option_map, OnOk};
ghost use Rattle.serde_json.specs.Data.{object, no_members, put};
ghost use Rattle.fc_base.specs.View.{val_view};
ghost use Rattle.fc_spec.specs.replies.Json.{natural_data, val_data, put_val};
ghost use Rattle.fc_reply.specs.Tokens.{WritesData, WritesMember};

use fc_base::{Val, WantMemory};
use json::Writer;

/// A value.
pub(crate) fn write_val(val: &Val, out: &mut Writer) -> Result<(), WantMemory>
    ensures { OnOk result (WritesData out.old out.new (val_data (val_view val.now))) }
{
    match val {
        Val::Text(text) => Ok(out.string(text.text())?),
        Val::Long(number) => Ok(out.i64(*number)?),
    }
}

// The member `val`, where there is one.
fn write_own_val(val: &Option<Val>, out: &mut Writer) -> Result<(), WantMemory>
    ensures { OnOk result (WritesMember out.old out.new (codes "val")
        (option_map (λ val. val_data (val_view val)) val.now)) }
{
    match val {
        Some(val) => {
            out.key("val")?;
            write_val(val, out)
        }
        None => Ok(()),
    }
}

/// The member `numBuckets`, where there is one.
pub(crate) fn write_number(number: Option<u64>, out: &mut Writer) -> Result<(), WantMemory>
    ensures { OnOk result (WritesMember out.old out.new (codes "numBuckets")
        (option_map natural_data number)) }
{
    match number {
        Some(number) => {
            out.key("numBuckets")?;
            Ok(out.u64(number)?)
        }
        None => Ok(()),
    }
}

/// A bucket with no facets.
pub(crate) fn write_leaf(val: &Option<Val>, count: u64, out: &mut Writer) -> Result<(), WantMemory>
    ensures { OnOk result (WritesData out.old out.new (object
        (put_val (option_map val_view val.now)
        (put (codes "count") (natural_data count) no_members)))) }
{
    out.begin_object()?;
    out.key("count")?;
    out.u64(count)?;
    write_own_val(val, out)?;
    Ok(out.end_object()?)
}
