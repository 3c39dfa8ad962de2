//! The bodies that answer requests on symbols. They are written token by token, and no JSON value is made first: a list may have
//! tens of thousands of places.
ghost use Rattle.std.specs.Prelude.{◌≡◌, [], ◌∷◌, ◌++◌, decimal, IfOk, OnOk, map};
ghost use Rattle.json.specs.Token.{key, number, begin_array};
ghost use Rattle.serde_json.specs.View.{items_of};
ghost use Rattle.serde_json.specs.Written.{compact_text};
ghost use Rattle.lsp_messages.specs.Tokens.{tokens_of, tokens_left};
ghost use Rattle.lsp_messages.specs.Written.{id_value, reply_value, position_value, span_value, location_value, place_value, hover_value, kind_number, symbol_value, answer_value};

use crate::incoming::Id;
use crate::outgoing::{DocumentSymbol, Location, Span, SymbolAnswer, SymbolKind};
use hl_base::{OutOfMemory, Position, Text};
use json::Writer;
use std::alloc::Global;

/// The body of the reply to a request on symbols, in UTF-8 without blanks.
pub fn answer_text(alloc: Global, id: &Id, answer: &SymbolAnswer) -> Result<Vec<u8>, OutOfMemory>
    ensures { IfOk result (λ text. text.items ≡ compact_text (reply_value id.now (answer_value answer.now))) }
{
    let mut out = Writer::new(Vec::new(alloc));
    write_reply(&mut out, id, answer)?;
    Ok(out.into_inner())
}

fn write_reply(out: &mut Writer, id: &Id, answer: &SymbolAnswer) -> Result<(), OutOfMemory>
    ensures before { out.new.before ≡ out.old.before }
    ensures tokens { OnOk result (out.new.tokens ≡ out.old.tokens ++ tokens_of (reply_value id.now (answer_value answer.now))) }
{
    out.begin_object()?;
    out.key("id")?;
    write_id(out, id)?;
    out.key("jsonrpc")?;
    out.string("2.0")?;
    out.key("result")?;
    write_answer(out, answer)?;
    Ok(out.end_object()?)
}

fn write_id(out: &mut Writer, id: &Id) -> Result<(), OutOfMemory>
    ensures before { out.new.before ≡ out.old.before }
    ensures tokens { OnOk result (out.new.tokens ≡ out.old.tokens ++ tokens_of (id_value id.now)) }
{
    match id {
        Id::Number(number) => Ok(out.i64(i64::from(*number))?),
        Id::Words(words) => Ok(out.string(words.as_str())?),
    }
}

fn write_answer(out: &mut Writer, answer: &SymbolAnswer) -> Result<(), OutOfMemory>
    ensures before { out.new.before ≡ out.old.before }
    ensures tokens { OnOk result (out.new.tokens ≡ out.old.tokens ++ tokens_of (answer_value answer.now)) }
{
    match answer {
        SymbolAnswer::Nothing => Ok(out.null()?),
        SymbolAnswer::Place(place) => write_location(out, &place.uri, place.range),
        SymbolAnswer::Places(places) => write_places(out, places.as_slice()),
        SymbolAnswer::Hover(text) => write_hover(out, text),
        SymbolAnswer::Symbols(symbols) => write_symbols(out, symbols.as_slice()),
    }
}

fn write_places(out: &mut Writer, places: &[Location]) -> Result<(), OutOfMemory>
    ensures before { out.new.before ≡ out.old.before }
    ensures tokens { OnOk result (out.new.tokens ≡ out.old.tokens ++ begin_array ∷ tokens_left (items_of (map place_value places.now))) }
{
    out.begin_array()?;
    for place in places {
        write_location(out, &place.uri, place.range)?;
    }
    Ok(out.end_array()?)
}

fn write_symbols(out: &mut Writer, symbols: &[DocumentSymbol]) -> Result<(), OutOfMemory>
    ensures before { out.new.before ≡ out.old.before }
    ensures tokens { OnOk result (out.new.tokens ≡ out.old.tokens ++ begin_array ∷ tokens_left (items_of (map symbol_value symbols.now))) }
{
    out.begin_array()?;
    for symbol in symbols {
        write_symbol(out, symbol)?;
    }
    Ok(out.end_array()?)
}

fn write_hover(out: &mut Writer, text: &Text) -> Result<(), OutOfMemory>
    ensures before { out.new.before ≡ out.old.before }
    ensures tokens { OnOk result (out.new.tokens ≡ out.old.tokens ++ tokens_of (hover_value text.now)) }
{
    out.begin_object()?;
    out.key("contents")?;
    out.begin_object()?;
    out.key("kind")?;
    out.string("plaintext")?;
    out.key("value")?;
    out.string(text.as_str())?;
    out.end_object()?;
    Ok(out.end_object()?)
}

fn kind_number(kind: SymbolKind) -> u32
    ensures { result ≡ kind_number kind }
{
    match kind {
        SymbolKind::Variable => 13,
        SymbolKind::Constant => 14,
    }
}

fn write_symbol(out: &mut Writer, symbol: &DocumentSymbol) -> Result<(), OutOfMemory>
    ensures before { out.new.before ≡ out.old.before }
    ensures tokens { OnOk result (out.new.tokens ≡ out.old.tokens ++ tokens_of (symbol_value symbol.now)) }
{
    out.begin_object()?;
    write_number(out, "kind", kind_number(symbol.kind))?;
    out.key("name")?;
    out.string(symbol.name.as_str())?;
    out.key("range")?;
    write_span(out, symbol.range)?;
    out.key("selectionRange")?;
    write_span(out, symbol.range)?;
    Ok(out.end_object()?)
}

fn write_location(out: &mut Writer, uri: &Text, range: Span) -> Result<(), OutOfMemory>
    ensures before { out.new.before ≡ out.old.before }
    ensures tokens { OnOk result (out.new.tokens ≡ out.old.tokens ++ tokens_of (location_value uri.now range)) }
{
    out.begin_object()?;
    out.key("range")?;
    write_span(out, range)?;
    out.key("uri")?;
    out.string(uri.as_str())?;
    Ok(out.end_object()?)
}

fn write_span(out: &mut Writer, span: Span) -> Result<(), OutOfMemory>
    ensures before { out.new.before ≡ out.old.before }
    ensures tokens { OnOk result (out.new.tokens ≡ out.old.tokens ++ tokens_of (span_value span)) }
{
    out.begin_object()?;
    out.key("end")?;
    write_position(out, span.end)?;
    out.key("start")?;
    write_position(out, span.start)?;
    Ok(out.end_object()?)
}

fn write_position(out: &mut Writer, position: Position) -> Result<(), OutOfMemory>
    ensures before { out.new.before ≡ out.old.before }
    ensures tokens { OnOk result (out.new.tokens ≡ out.old.tokens ++ tokens_of (position_value position)) }
{
    out.begin_object()?;
    write_number(out, "character", position.character)?;
    write_number(out, "line", position.line)?;
    Ok(out.end_object()?)
}

/// A member that is a number.
fn write_number(out: &mut Writer, name: &str, value: u32) -> Result<(), OutOfMemory>
    ensures before { out.new.before ≡ out.old.before }
    ensures tokens { OnOk result (out.new.tokens ≡ out.old.tokens ++ key name.now ∷ number (decimal value) ∷ []) }
{
    out.key(name)?;
    Ok(out.u64(u64::from(value))?)
}
