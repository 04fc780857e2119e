// Numbers, keys and statistics are written behind other bytes.
ghost use Rattle.std.specs.Prelude.{◌≡◌, ◌++◌, ◌<◌, ◌^◌, FitsSigned, OnOk, map};
ghost use Rattle.std.specs.Int.{w64};
ghost use Rattle.std.specs.List.{flat_map, AllByRecursion};
ghost use Rattle.fc_spec.specs.laws.SpellingLaw.{FitsValue, FitsStats};
ghost use Rattle.fc_spec.specs.requests.Buckets.{value};
ghost use Rattle.fc_wire.specs.Fitting.{KeyFits};
ghost use Rattle.fc_spec.specs.messages.MessageBytes.{long_bytes, integer_bytes, val_bytes, key_bytes, value_bytes, stats_bytes};
ghost use Rattle.fc_base.specs.View.{val_view};
ghost use Rattle.fc_partial.specs.StatsView.{stats_view};
ghost use Rattle.fc_partial.specs.View.{key_view, stat_value_view};

use fc_base::{Val, WantMemory};
use fc_partial::{Key, StatValue, Stats};

fn put_u64(out: &mut Vec<u8>, number: u64) -> Result<(), WantMemory>
    ensures bytes { OnOk result (out.new.items ≡ out.old.items ++ long_bytes number) }
    ensures fits { number < 2 ^ 64 }
{
    out.extend_from_slice(&number.to_le_bytes())?;
    Ok(())
}

fn put_i64(out: &mut Vec<u8>, number: i64) -> Result<(), WantMemory>
    ensures bytes { OnOk result (out.new.items ≡ out.old.items ++ integer_bytes number) }
    ensures fits { FitsSigned w64 number }
{
    put_u64(out, number.cast_unsigned())
}

// A length, which stands before what is so long.
pub(crate) fn put_length(out: &mut Vec<u8>, length: usize) -> Result<(), WantMemory>
    ensures bytes { OnOk result (out.new.items ≡ out.old.items ++ long_bytes length) }
    ensures fits { length < 2 ^ 64 }
{
    put_u64(out, length as u64)
}

fn put_val(out: &mut Vec<u8>, val: &Val) -> Result<(), WantMemory>
    ensures bytes { OnOk result (out.new.items ≡ out.old.items ++ val_bytes (val_view val.now)) }
    ensures fits { OnOk result (KeyFits (value (val_view val.now))) }
{
    match val {
        Val::Text(text) => {
            let bytes = text.bytes();
            out.push(0)?;
            put_length(out, bytes.len())?;
            out.extend_from_slice(bytes)?;
            Ok(())
        }
        Val::Long(number) => {
            out.push(1)?;
            put_i64(out, *number)?;
            Ok(())
        }
    }
}

pub(crate) fn put_key(out: &mut Vec<u8>, key: &Key) -> Result<(), WantMemory>
    ensures bytes { OnOk result (out.new.items ≡ out.old.items ++ key_bytes (key_view key.now)) }
    ensures fits { OnOk result (KeyFits (key_view key.now)) }
{
    match key {
        Key::Value(val) => put_val(out, val),
        Key::Missing => Ok(out.push(2)?),
        Key::Gap(number) => {
            out.push(3)?;
            out.extend_from_slice(&number.to_le_bytes())?;
            Ok(())
        }
        Key::Before => Ok(out.push(4)?),
        Key::Between => Ok(out.push(5)?),
        Key::After => Ok(out.push(6)?),
        Key::Whole => Ok(out.push(7)?),
    }
}

fn put_value(out: &mut Vec<u8>, value: StatValue) -> Result<(), WantMemory>
    ensures bytes { OnOk result (out.new.items ≡ out.old.items ++ value_bytes (stat_value_view value)) }
    ensures fits { OnOk result (FitsValue (stat_value_view value)) }
{
    match value {
        StatValue::Number(number) => {
            out.push(0)?;
            put_i64(out, number)
        }
        StatValue::Extreme(None) => Ok(out.push(1)?),
        StatValue::Extreme(Some(number)) => {
            out.push(2)?;
            put_i64(out, number)
        }
    }
}

fn put_values(out: &mut Vec<u8>, values: &[StatValue]) -> Result<(), WantMemory>
    ensures bytes { OnOk result (out.new.items ≡ out.old.items ++ flat_map value_bytes (map stat_value_view values.now)) }
    ensures fit { OnOk result (AllByRecursion FitsValue (map stat_value_view values.now)) }
{
    for value in values {
        put_value(out, *value)?;
    }
    Ok(())
}

pub(crate) fn put_stats(out: &mut Vec<u8>, stats: &Stats) -> Result<(), WantMemory>
    ensures bytes { OnOk result (out.new.items ≡ out.old.items ++ stats_bytes (stats_view stats.now)) }
    ensures fit { OnOk result (FitsStats (stats_view stats.now)) }
{
    put_u64(out, stats.count)?;
    put_length(out, stats.values.len())?;
    put_values(out, &stats.values)?;
    Ok(())
}
