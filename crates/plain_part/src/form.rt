ghost use Rattle.std.specs.Prelude.{◌≡◌, ◌↔◌, ◌<◌, ◌^◌, All, IsTrue, Some, length};
ghost use Rattle.host_port.specs.HostRows.{shown_results};
ghost use Rattle.host_port.specs.Forms.{
  HasParts,
  IsResult,
  KeepsCount,
  IsText,
  IsTextOf,
  IsCount,
  IsWord,
  IsWordOf,
  IsHeld,
  IsValue,
  is_written,
};
ghost use Rattle.world_rules.specs.Kinds.{HasRowForm};

use crate::argument;
use host_port::{
    HostRow, Reply, Request, Results, Text, When, Width, Word, WordValue, WrittenText, WrittenWord,
    known_row,
};

/// The reply has the form of the call that was asked, whether the host serves it or not.
pub fn has_row_form(request: &Request, reply: &Reply) -> bool
    ensures { IsTrue result ↔ HasRowForm request.now reply.now }
{
    match known_row(request.ask.call) {
        Some(row) => has_parts(row, request, reply),
        None => false,
    }
}

/// The reply has the parts that the row of the call says.
fn has_parts(row: &HostRow, request: &Request, reply: &Reply) -> bool
    ensures { IsTrue result ↔ HasParts (Some (shown_results row.now.results)) row.now.text row.now.word
        request.now.ask.args reply.now }
{
    let given = reply.result;
    may_be_result(row.results, given)
        && keeps_count(row.results, request, given)
        && is_written_text(row.text, request, given, &reply.text)
        && is_written_word(row.word, request, given, &reply.text, &reply.word)
}

/// A call with these results may give this one.
fn may_be_result(results: Results, given: Option<u64>) -> bool
    ensures { IsTrue result ↔ IsResult (Some (shown_results results)) given }
{
    let Some(n) = given else {
        return matches!(results, Results::NoResult);
    };
    match results {
        Results::NoResult => false,
        Results::OneOf(numbers) => numbers.contains(&n),
        Results::UpTo(most) => n <= most,
        Results::Count(_, most) => n <= most,
        Results::AnyI64 => true,
    }
}

/// A result that is a count does not pass its argument.
fn keeps_count(results: Results, request: &Request, given: Option<u64>) -> bool
    ensures { IsTrue result ↔ KeepsCount (Some (shown_results results)) request.now.ask.args given }
{
    match (results, given) {
        (Results::Count(place, _), Some(n)) => n <= argument(request, place),
        _ => true,
    }
}

/// Something is written with this result.
fn is_written(when: When, given: Option<u64>) -> bool
    ensures { result ≡ is_written when given }
{
    match (when, given) {
        (When::Always, _) => true,
        (When::OnlyWith(number), Some(n)) => n == number,
        (When::OnlyWith(_), None) => false,
    }
}

/// The text is the one that a row writes with this result.
fn is_written_text(
    form: Option<WrittenText>,
    request: &Request,
    given: Option<u64>,
    text: &Option<Text>,
) -> bool
    ensures { IsTrue result ↔ IsText form request.now.ask.args given text.now }
{
    let Some(form) = form else {
        return text.is_none();
    };
    match (is_written(form.when, given), text) {
        (true, Some(text)) => is_text_of(form, request, given, text),
        (true, None) => false,
        (false, text) => text.is_none(),
    }
}

/// The text stands where it is to, and is no longer than it may be.
fn is_text_of(form: WrittenText, request: &Request, given: Option<u64>, text: &Text) -> bool
    ensures { IsTrue result ↔ IsTextOf form request.now.ask.args given text.now }
{
    let len = count_of(text.bytes.as_slice());
    u64::from(text.addr) == argument(request, form.addr)
        && len <= argument(request, form.length)
        && len <= form.most
        && (!form.counted || given == Some(len))
}

/// How many bytes these are; each is one.
fn count_of(bytes: &[u8]) -> u64
    ensures count { result ≡ length bytes.now }
    ensures octets { All (λ b. b < 2 ^ 8) bytes.now }
{
    bytes.len() as u64
}

/// The word is the one that a row writes with this result and this text.
fn is_written_word(
    form: Option<WrittenWord>,
    request: &Request,
    given: Option<u64>,
    text: &Option<Text>,
    word: &Option<Word>,
) -> bool
    ensures { IsTrue result ↔ IsWord form request.now.ask.args given text.now word.now }
{
    let Some(form) = form else {
        return word.is_none();
    };
    match (is_written(form.when, given), word) {
        (true, Some(word)) => is_word_of(form, request, text, word),
        (true, None) => false,
        (false, word) => word.is_none(),
    }
}

/// The word stands where it is to, is as wide as it is to be, and holds a number that it may be.
fn is_word_of(form: WrittenWord, request: &Request, text: &Option<Text>, word: &Word) -> bool
    ensures { IsTrue result ↔ IsWordOf form request.now.ask.args text.now word.now }
{
    u64::from(word.addr) == argument(request, form.addr)
        && word.width == form.width.bytes()
        && is_held(form.width, word.value)
        && may_be_value(form.value, request, text, word.value)
}

/// A word of this width holds the number.
fn is_held(width: Width, n: u64) -> bool
    ensures { IsTrue result ↔ IsHeld width n }
{
    match width {
        Width::Four => n <= 0xffff_ffff,
        Width::Eight => true,
    }
}

/// The word may be this number.
fn may_be_value(value: WordValue, request: &Request, text: &Option<Text>, n: u64) -> bool
    ensures { IsTrue result ↔ IsValue value request.now.ask.args text.now n }
{
    match value {
        WordValue::AnyValue => true,
        WordValue::LengthOfText => match text {
            Some(text) => n == text.bytes.len() as u64,
            None => n == 0,
        },
        WordValue::AtMost(place, most) => n <= argument(request, place) && n <= most,
    }
}
