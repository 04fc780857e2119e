// The number of a shard, read from its token.
ghost use Rattle.std.specs.Prelude.{IfSome};
ghost use Rattle.fc_lines.specs.AddedTokens.{GivesShard};

use fc_docs::integer_of;
use json::{Reader, Token};

/// The shard whose number comes next, where it is one of so many.
pub(super) fn read_shard(shards: u32, reader: &mut Reader<'_>) -> Option<u32>
    ensures { IfSome result (λ n. GivesShard shards reader.old reader.new n) }
{
    let Some(Token::Number(digits)) = reader.next() else {
        return None;
    };
    match u32::try_from(integer_of(digits)?) {
        Ok(number) if number < shards => Some(number),
        _ => None,
    }
}
