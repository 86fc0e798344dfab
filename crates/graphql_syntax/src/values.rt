//! Values.

ghost use Rattle.std.specs.Prelude.{◌≡◌, []};
ghost use Rattle.graphql_syntax.specs.Reading.{Reads, input, many_behind, more_test};
ghost use Rattle.graphql_syntax.specs.ValueReaders.{string_at};
ghost use Rattle.graphql_syntax.specs.declared.production.More.TheVariants.{Until};
ghost use Rattle.graphql_syntax.specs.ValueReaders.{boolean_at, expected_value, float_at, int_at, list_with, null_at, object_field_with, object_with, plain_value_at, string_literal_at, value_at, value_with, variable_at, variable_value_at, word_value_at};
ghost use Rattle.graphql_tokens.specs.declared.token.TokenKind.TheVariants.{RightBracket, RightBrace};

use crate::cursor::Cursor;
use crate::keywords::Keyword;
use crate::production::{More, make_room, packed};
use crate::refusals::{Expected, Refusal};
use crate::steps::ascii_text;
use graphql_numbers::{FloatValue, IntValue};
use graphql_strings::string_value;
use graphql_tokens::TokenKind;
use graphql_trees::{ObjectField, StringLiteral, Value, Variable};
use sqlite_items::Items;
use std::alloc::Global;

/// A value, whose lists and objects are nested at most so deep in one another. A constant value has no
/// variable.
///
/// Specification: 2.9 Input Values.
#[cycle(values)]
pub fn value<'a>(
    alloc: Global,
    cursor: Cursor<'a>,
    constant: bool,
    depth: usize,
) -> Result<(Value, Cursor<'a>), Refusal>
    ensures { Reads (λ found. (found.0, input found.1)) result (value_at constant depth (input cursor.entry)) }
{
    if cursor.sees(TokenKind::LeftBracket) {
        if depth == 0 {
            return Err(cursor.too_deep());
        }
        return list(alloc, cursor, constant, depth - 1);
    }
    if cursor.sees(TokenKind::LeftBrace) {
        if depth == 0 {
            return Err(cursor.too_deep());
        }
        return object(alloc, cursor, constant, depth - 1);
    }
    plain_value(alloc, cursor, constant)
}

#[cycle(values)]
#[tactic(auto, unfolding(crate::specs::ValueReaders::list_with, crate::specs::Reading::starting, crate::specs::Reading::sequence, crate::specs::Reading::place, crate::specs::Reading::answer))]
fn list<'a>(
    alloc: Global,
    cursor: Cursor<'a>,
    constant: bool,
    depth: usize,
) -> Result<(Value, Cursor<'a>), Refusal>
    ensures { Reads (λ found. (found.0, input found.1)) result (list_with (value_at constant depth) (input cursor.entry)) }
{
    let inside = cursor.expect(TokenKind::LeftBracket)?;
    let (items, end) = values(alloc, inside, constant, depth)?;
    let behind = end.expect(TokenKind::RightBracket)?;
    Ok((Value::List(items, behind.span_from(cursor.start())), behind))
}

#[cycle(values)]
fn values<'a>(
    alloc: Global,
    cursor: Cursor<'a>,
    constant: bool,
    depth: usize,
) -> Result<(Items<Value>, Cursor<'a>), Refusal>
    ensures { Reads (λ found. (found.0, input found.1)) result
        (many_behind (more_test (Until RightBracket)) (value_at constant depth) [] (input cursor.entry)) }
{
    let mut found = Vec::new(alloc);
    let mut here = cursor;
    for _turn in 0..cursor.tokens.len() {
        if !here.has_more(More::Until(TokenKind::RightBracket)) {
            return Ok((packed(found), here));
        }
        let (item, behind) = value(alloc, here, constant, depth)?;
        make_room(&mut found)?;
        found.push(item)?;
        here = behind;
    }
    Ok((packed(found), here))
}

#[cycle(values)]
#[tactic(auto, unfolding(crate::specs::ValueReaders::object_with, crate::specs::Reading::starting, crate::specs::Reading::sequence, crate::specs::Reading::place, crate::specs::Reading::answer))]
fn object<'a>(
    alloc: Global,
    cursor: Cursor<'a>,
    constant: bool,
    depth: usize,
) -> Result<(Value, Cursor<'a>), Refusal>
    ensures { Reads (λ found. (found.0, input found.1)) result (object_with (value_at constant depth) (input cursor.entry)) }
{
    let inside = cursor.expect(TokenKind::LeftBrace)?;
    let (fields, end) = object_fields(alloc, inside, constant, depth)?;
    let behind = end.expect(TokenKind::RightBrace)?;
    Ok((
        Value::Object(fields, behind.span_from(cursor.start())),
        behind,
    ))
}

#[cycle(values)]
fn object_fields<'a>(
    alloc: Global,
    cursor: Cursor<'a>,
    constant: bool,
    depth: usize,
) -> Result<(Items<ObjectField>, Cursor<'a>), Refusal>
    ensures { Reads (λ found. (found.0, input found.1)) result
        (many_behind (more_test (Until RightBrace)) (object_field_with (value_at constant depth)) [] (input cursor.entry)) }
{
    let mut found = Vec::new(alloc);
    let mut here = cursor;
    for _turn in 0..cursor.tokens.len() {
        if !here.has_more(More::Until(TokenKind::RightBrace)) {
            return Ok((packed(found), here));
        }
        let (item, behind) = object_field(alloc, here, constant, depth)?;
        make_room(&mut found)?;
        found.push(item)?;
        here = behind;
    }
    Ok((packed(found), here))
}

#[cycle(values)]
#[tactic(auto, unfolding(crate::specs::ValueReaders::object_field_with, crate::specs::Reading::starting, crate::specs::Reading::sequence, crate::specs::Reading::place, crate::specs::Reading::answer))]
fn object_field<'a>(
    alloc: Global,
    cursor: Cursor<'a>,
    constant: bool,
    depth: usize,
) -> Result<(ObjectField, Cursor<'a>), Refusal>
    ensures { Reads (λ found. (found.0, input found.1)) result
        (object_field_with (value_at constant depth) (input cursor.entry)) }
{
    let (name, colon) = cursor.name(alloc)?;
    let behind = colon.expect(TokenKind::Colon)?;
    let (value, end) = value(alloc, behind, constant, depth)?;
    let span = end.span_from(cursor.start());
    Ok((ObjectField { name, value, span }, end))
}

/// A value that is no list and no object.
#[tactic(auto, unfolding(crate::specs::ValueReaders::plain_value_at, crate::specs::Reading::choose, crate::specs::Reading::refuse))]
fn plain_value<'a>(
    alloc: Global,
    cursor: Cursor<'a>,
    constant: bool,
) -> Result<(Value, Cursor<'a>), Refusal>
    ensures { Reads (λ found. (found.0, input found.1)) result (plain_value_at constant (input cursor.entry)) }
{
    if cursor.sees(TokenKind::Name) {
        word_value(alloc, cursor)
    } else if cursor.sees(TokenKind::IntValue) {
        int(alloc, cursor)
    } else if cursor.sees(TokenKind::FloatValue) {
        float(alloc, cursor)
    } else if cursor.sees_string() {
        string(alloc, cursor)
    } else if cursor.sees(TokenKind::Dollar) {
        variable_value(alloc, cursor, constant)
    } else {
        Err(cursor.refusal(expected_value(constant)))
    }
}

fn expected_value(constant: bool) -> Expected
    ensures { result ≡ expected_value constant }
{
    if constant {
        Expected::ConstantValue
    } else {
        Expected::Value
    }
}

/// A variable: `$`, and a name.
///
/// Specification: 2.10 Variables.
#[tactic(auto, unfolding(crate::specs::ValueReaders::variable_at, crate::specs::Reading::starting, crate::specs::Reading::sequence, crate::specs::Reading::place, crate::specs::Reading::answer))]
pub fn variable<'a>(alloc: Global, cursor: Cursor<'a>) -> Result<(Variable, Cursor<'a>), Refusal>
    ensures { Reads (λ found. (found.0, input found.1)) result (variable_at (input cursor.entry)) }
{
    let behind = cursor.expect(TokenKind::Dollar)?;
    let (name, end) = behind.name(alloc)?;
    let span = end.span_from(cursor.start());
    Ok((Variable { name, span }, end))
}

#[tactic(auto, unfolding(crate::specs::ValueReaders::variable_value_at, crate::specs::Reading::refuse, crate::specs::Reading::sequence, crate::specs::Reading::answer))]
fn variable_value<'a>(
    alloc: Global,
    cursor: Cursor<'a>,
    constant: bool,
) -> Result<(Value, Cursor<'a>), Refusal>
    ensures { Reads (λ found. (found.0, input found.1)) result (variable_value_at constant (input cursor.entry)) }
{
    if constant {
        return Err(cursor.refusal(Expected::ConstantValue));
    }
    let (variable, end) = variable(alloc, cursor)?;
    Ok((Value::Variable(variable), end))
}

/// A string or a block string.
///
/// Specification: 2.9.4 String Value.
#[tactic(auto, unfolding(crate::specs::ValueReaders::string_literal_at, crate::specs::Reading::starting, crate::specs::Reading::sequence, crate::specs::Reading::text_with, crate::specs::Reading::refuse, crate::specs::Reading::place, crate::specs::Reading::answer))]
pub fn string_literal<'a>(
    alloc: Global,
    cursor: Cursor<'a>,
) -> Result<(StringLiteral, Cursor<'a>), Refusal>
    ensures { Reads (λ found. (found.0, input found.1)) result (string_literal_at (input cursor.entry)) }
{
    if !cursor.sees_string() {
        return Err(cursor.refusal(Expected::Token(TokenKind::StringValue)));
    }
    match string_value(alloc, cursor.next_text())? {
        None => Err(cursor.refusal(Expected::Token(TokenKind::StringValue))),
        Some(value) => {
            let behind = cursor.behind();
            let span = behind.span_from(cursor.start());
            Ok((StringLiteral { value, span }, behind))
        }
    }
}

#[tactic(auto, unfolding(crate::specs::Reading::sequence, crate::specs::Reading::answer))]
fn string<'a>(alloc: Global, cursor: Cursor<'a>) -> Result<(Value, Cursor<'a>), Refusal>
    ensures { Reads (λ found. (found.0, input found.1)) result (string_at (input cursor.entry)) }
{
    let (literal, behind) = string_literal(alloc, cursor)?;
    Ok((Value::String(literal), behind))
}

#[tactic(auto, unfolding(crate::specs::ValueReaders::int_at, crate::specs::Reading::starting, crate::specs::Reading::sequence, crate::specs::Reading::text_with, crate::specs::Reading::refuse, crate::specs::Reading::place, crate::specs::Reading::answer))]
fn int<'a>(alloc: Global, cursor: Cursor<'a>) -> Result<(Value, Cursor<'a>), Refusal>
    ensures { Reads (λ found. (found.0, input found.1)) result (int_at (input cursor.entry)) }
{
    if !cursor.sees(TokenKind::IntValue) {
        return Err(cursor.refusal(Expected::Token(TokenKind::IntValue)));
    }
    let behind = cursor.behind();
    let text = ascii_text(alloc, cursor.next_text())?;
    match IntValue::new(text) {
        None => Err(cursor.refusal(Expected::Token(TokenKind::IntValue))),
        Some(value) => Ok((Value::Int(value, behind.span_from(cursor.start())), behind)),
    }
}

#[tactic(auto, unfolding(crate::specs::ValueReaders::float_at, crate::specs::Reading::starting, crate::specs::Reading::sequence, crate::specs::Reading::text_with, crate::specs::Reading::refuse, crate::specs::Reading::place, crate::specs::Reading::answer))]
fn float<'a>(alloc: Global, cursor: Cursor<'a>) -> Result<(Value, Cursor<'a>), Refusal>
    ensures { Reads (λ found. (found.0, input found.1)) result (float_at (input cursor.entry)) }
{
    if !cursor.sees(TokenKind::FloatValue) {
        return Err(cursor.refusal(Expected::Token(TokenKind::FloatValue)));
    }
    let behind = cursor.behind();
    let text = ascii_text(alloc, cursor.next_text())?;
    match FloatValue::new(text) {
        None => Err(cursor.refusal(Expected::Token(TokenKind::FloatValue))),
        Some(value) => Ok((
            Value::Float(value, behind.span_from(cursor.start())),
            behind,
        )),
    }
}

/// A value that begins with a name.
#[tactic(auto, unfolding(crate::specs::ValueReaders::word_value_at, crate::specs::Reading::choose, crate::specs::Reading::sequence, crate::specs::Reading::answer))]
fn word_value<'a>(alloc: Global, cursor: Cursor<'a>) -> Result<(Value, Cursor<'a>), Refusal>
    ensures { Reads (λ found. (found.0, input found.1)) result (word_value_at (input cursor.entry)) }
{
    if cursor.sees_keyword(Keyword::True) {
        boolean(cursor, true)
    } else if cursor.sees_keyword(Keyword::False) {
        boolean(cursor, false)
    } else if cursor.sees_keyword(Keyword::Null) {
        null(cursor)
    } else {
        let (name, end) = cursor.name(alloc)?;
        Ok((Value::Enum(name), end))
    }
}

#[tactic(auto, unfolding(crate::specs::ValueReaders::boolean_at, crate::specs::Reading::starting, crate::specs::Reading::sequence, crate::specs::Reading::place, crate::specs::Reading::answer))]
fn boolean(cursor: Cursor, value: bool) -> Result<(Value, Cursor), Refusal>
    ensures { Reads (λ found. (found.0, input found.1)) result (boolean_at value (input cursor.entry)) }
{
    let keyword = if value { Keyword::True } else { Keyword::False };
    let behind = cursor.expect_keyword(keyword)?;
    Ok((
        Value::Boolean(value, behind.span_from(cursor.start())),
        behind,
    ))
}

#[tactic(auto, unfolding(crate::specs::ValueReaders::null_at, crate::specs::Reading::starting, crate::specs::Reading::sequence, crate::specs::Reading::place, crate::specs::Reading::answer))]
fn null(cursor: Cursor) -> Result<(Value, Cursor), Refusal>
    ensures { Reads (λ found. (found.0, input found.1)) result (null_at (input cursor.entry)) }
{
    let behind = cursor.expect_keyword(Keyword::Null)?;
    Ok((Value::Null(behind.span_from(cursor.start())), behind))
}
