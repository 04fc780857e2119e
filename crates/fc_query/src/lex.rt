// Cutting a text into tokens.
ghost use Rattle.std.specs.Prelude.{◌≡◌, ◌&&◌, ◌||◌, IfOk, codes, map, option_map, string_bytes, if◌then◌else◌};
ghost use Rattle.std.specs.Bool.{MatchBool};
ghost use Rattle.fc_spec.specs.words.Lists.{is_empty};
ghost use Rattle.fc_spec.specs.documents.Val.{same_text};
ghost use Rattle.fc_spec.specs.queries.QueryCharacters.{begins, is_ordinary};
ghost use Rattle.fc_spec.specs.queries.QueryTokens.{star as a_star, value};
ghost use Rattle.fc_spec.specs.queries.QueryRanges.{bracket_at, end_at, past_to, range_at, written_end_at};
ghost use Rattle.fc_spec.specs.queries.QueryRow.{marked_at, single as single_of, token_at, tokens_of};
ghost use Rattle.fc_spec.specs.queries.QueryWords.{plain_word, quoted_at, word_at};
ghost use Rattle.fc_query.specs.Takes.{Gives, IsRun, Takes};
ghost use Rattle.fc_query.specs.View.{part_test, token_view, tokens_view};

use crate::QueryFault;
use crate::characters::{Character, Cursor};
use crate::classes::Part;
use crate::tokens::{Operator, Sign, Token, Value, WrittenRange};
use fc_base::{Refusal, WantMemory};
use std::alloc::Global;

/// The text of a part, and whether each of its characters stands as it is.
#[derive(Drop)]
pub(crate) struct Run {
    pub(crate) text: String,
    pub(crate) plain: bool,
}

fn run_of(alloc: Global, cursor: &mut Cursor, part: Part) -> Result<Run, WantMemory>
    ensures { IfOk result (λ run. IsRun (part_test part) run cursor.old cursor.new) }
{
    let mut text = String::new(alloc);
    let mut plain = true;
    while let Some(first) = cursor.peek() {
        if !part.has(first) {
            break;
        }
        text.push(first.code())?;
        plain &= first.is_bare();
        cursor.advance();
    }
    Ok(Run { text, plain })
}

// Some words have a meaning of their own.
#[tactic(auto, unfolding(fc_spec::specs::queries::QueryWords::plain_word))]
fn plain_word_token(text: String) -> Token
    ensures { token_view result ≡ plain_word (string_bytes text) }
{
    match text.as_str() {
        "AND" | "&&" => Token::Operator(Operator::And),
        "OR" | "||" => Token::Operator(Operator::Or),
        "NOT" => Token::Sign(Sign::Negation),
        _ => Token::Value(Value::Word(text)),
    }
}

#[tactic(auto, unfolding(fc_spec::specs::queries::QueryWords::word_at))]
fn word(alloc: Global, cursor: &mut Cursor) -> Result<Token, Refusal<QueryFault>>
    ensures { Takes token_view cursor.new result (word_at cursor.old) }
{
    let run = run_of(alloc, cursor, Part::Word)?;
    if cursor.is_at('*') {
        return Err(Refusal::Fault(QueryFault::Syntax));
    }
    Ok(if run.plain {
        plain_word_token(run.text)
    } else {
        Token::Value(Value::Word(run.text))
    })
}

// Behind `"`.
#[tactic(auto, unfolding(fc_spec::specs::queries::QueryWords::quoted_at))]
fn quoted(alloc: Global, cursor: &mut Cursor) -> Result<String, Refusal<QueryFault>>
    ensures { Takes string_bytes cursor.new result (quoted_at cursor.old) }
{
    let run = run_of(alloc, cursor, Part::Quoted)?;
    if !cursor.take('"') {
        return Err(Refusal::Fault(QueryFault::Syntax));
    }
    Ok(run.text)
}

// Nothing, or the word TO without escapes.
fn is_no_end(run: &Run) -> bool
    ensures { let end = string_bytes run.now.text in
        result ≡ (is_empty end || (run.now.plain && same_text end (codes "TO"))) }
{
    let end = run.text.as_str();
    end.is_empty() || (run.plain && end == "TO")
}

// An end that is neither quoted nor a star.
#[tactic(auto, unfolding(fc_spec::specs::queries::QueryRanges::written_end_at))]
fn written_end(alloc: Global, cursor: &mut Cursor) -> Result<String, Refusal<QueryFault>>
    ensures { Takes string_bytes cursor.new result (written_end_at cursor.old) }
{
    let run = run_of(alloc, cursor, Part::End)?;
    if is_no_end(&run) {
        return Err(Refusal::Fault(QueryFault::Syntax));
    }
    Ok(run.text)
}

// No text is a star.
#[tactic(auto, unfolding(fc_spec::specs::queries::QueryRanges::end_at))]
fn end(alloc: Global, cursor: &mut Cursor) -> Result<Option<String>, Refusal<QueryFault>>
    ensures { Takes (option_map string_bytes) cursor.new result (end_at cursor.old) }
{
    match cursor.peek() {
        None => Err(Refusal::Fault(QueryFault::Syntax)),
        Some(Character::Bare('"')) => {
            cursor.advance();
            Ok(Some(quoted(alloc, cursor)?))
        }
        Some(Character::Bare('*')) => {
            cursor.advance();
            Ok(None)
        }
        _ => Ok(Some(written_end(alloc, cursor)?)),
    }
}

// White space, TO, white space.
#[tactic(auto, unfolding(fc_spec::specs::queries::QueryRanges::past_to))]
fn take_to(cursor: &mut Cursor) -> bool
    ensures { MatchBool result (past_to cursor.old ≡ Some cursor.new) (past_to cursor.old ≡ None) }
{
    cursor.take_white() && cursor.take('T') && cursor.take('O') && cursor.take_white()
}

// `]` or `}`: whether the end is in the range.
#[tactic(auto, unfolding(fc_spec::specs::queries::QueryRanges::bracket_at))]
fn bracket(cursor: &mut Cursor) -> Result<bool, Refusal<QueryFault>>
    ensures { Takes (λ has_end. has_end) cursor.new result (bracket_at cursor.old) }
{
    let has_end = match cursor.peek() {
        Some(Character::Bare(']')) => true,
        Some(Character::Bare('}')) => false,
        _ => return Err(Refusal::Fault(QueryFault::Syntax)),
    };
    cursor.advance();
    Ok(has_end)
}

// Behind `[` or `{`.
#[tactic(auto, unfolding(fc_spec::specs::queries::QueryRanges::range_at))]
fn range(alloc: Global, cursor: &mut Cursor, has_low: bool) -> Result<Token, Refusal<QueryFault>>
    ensures { Takes token_view cursor.new result (range_at has_low cursor.old) }
{
    cursor.skip_white();
    let low = end(alloc, cursor)?;
    if !take_to(cursor) {
        return Err(Refusal::Fault(QueryFault::Syntax));
    }
    let high = end(alloc, cursor)?;
    cursor.skip_white();
    let has_high = bracket(cursor)?;
    Ok(Token::Value(Value::Range(WrittenRange {
        low,
        high,
        has_low,
        has_high,
    })))
}

// A character that is a token by itself.
#[tactic(auto, unfolding(fc_spec::specs::queries::QueryRow::single))]
fn single(c: char) -> Option<Token>
    ensures { option_map token_view result ≡ single_of c }
{
    match c {
        '+' => Some(Token::Sign(Sign::Plus)),
        '-' => Some(Token::Sign(Sign::Minus)),
        '!' => Some(Token::Sign(Sign::Exclamation)),
        '(' => Some(Token::Opening),
        ')' => Some(Token::Closing),
        ':' => Some(Token::Colon),
        _ => None,
    }
}

// Behind `*`.
fn star(cursor: &Cursor) -> Result<Token, Refusal<QueryFault>>
    ensures { Takes token_view cursor.now result
        (if begins is_ordinary cursor.now then None else Some (value a_star, cursor.now)) }
{
    match cursor.peek() {
        Some(next) if next.is_ordinary() => Err(Refusal::Fault(QueryFault::Syntax)),
        _ => Ok(Token::Value(Value::Star)),
    }
}

// Behind a character that begins no word.
#[tactic(auto, unfolding(fc_spec::specs::queries::QueryRow::marked_at))]
fn marked(alloc: Global, cursor: &mut Cursor, c: char) -> Result<Token, Refusal<QueryFault>>
    ensures { Takes token_view cursor.new result (marked_at c cursor.old) }
{
    match c {
        '"' => Ok(Token::Value(Value::Quoted(quoted(alloc, cursor)?))),
        '[' => range(alloc, cursor, true),
        '{' => range(alloc, cursor, false),
        '*' => star(cursor),
        _ => match single(c) {
            Some(token) => Ok(token),
            None => Err(Refusal::Fault(QueryFault::Syntax)),
        },
    }
}

#[tactic(auto, unfolding(fc_spec::specs::queries::QueryRow::token_at))]
fn token(
    alloc: Global,
    cursor: &mut Cursor,
    behind_colon: bool,
) -> Result<Token, Refusal<QueryFault>>
    ensures { Takes token_view cursor.new result (token_at behind_colon cursor.old) }
{
    match cursor.peek() {
        None => Err(Refusal::Fault(QueryFault::Syntax)),
        Some(first) if first.begins_word(behind_colon) => word(alloc, cursor),
        Some(first) => {
            cursor.advance();
            marked(alloc, cursor, first.code())
        }
    }
}

/// The row of tokens of a text.
pub(crate) fn tokens(alloc: Global, text: &str) -> Result<Vec<Token>, Refusal<QueryFault>>
    ensures { Gives tokens_view result (tokens_of text.now) }
{
    let mut cursor = Cursor::new(text);
    let mut tokens = Vec::new(alloc);
    let mut behind_colon = false;
    while let Some(first) = cursor.peek() {
        if first.is_blank() {
            cursor.advance();
            behind_colon = false;
            continue;
        }
        let token = token(alloc, &mut cursor, behind_colon)?;
        behind_colon = token.is_colon();
        tokens.push(token)?;
    }
    Ok(tokens)
}
