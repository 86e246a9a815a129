ghost use Rattle.std.specs.Prelude.{◌≡◌, ◌↔◌, ◌<◌, ◌^◌, All, IsTrue, Some, length};
ghost use Rattle.host_port.specs.HostRows.{shown_results};
ghost use Rattle.host_port.specs.Forms.{HasForm, HasParts, IsResult, KeepsCount, IsText, IsTextOf, IsCount, IsWord, IsWordOf, IsValue, is_written, text_length};

use crate::areas::argument;
use crate::{
    Ask, HostRow, Reply, Results, Text, When, Word, WordValue, WrittenText, WrittenWord, host_row,
};

/// The reply has the form of the call that was asked.
pub fn has_form(ask: &Ask, reply: &Reply) -> bool
    ensures { IsTrue result ↔ HasForm ask.now reply.now }
{
    match host_row(ask.call) {
        Some(row) => has_parts(row, &ask.args, reply),
        None => false,
    }
}

/// The reply has the parts that the row of the call says.
fn has_parts(row: &HostRow, args: &[u64; 8], reply: &Reply) -> bool
    ensures { IsTrue result ↔
        HasParts (Some (shown_results row.now.results)) row.now.text row.now.word args.now reply.now }
{
    is_result(row.results, reply.result)
        && keeps_count(row.results, args, reply.result)
        && is_text(row.text, args, reply.result, &reply.text)
        && is_word(row.word, args, reply.result, &reply.text, &reply.word)
}

/// A call with these results may give this one.
fn is_result(results: Results, given: Option<u64>) -> bool
    ensures { IsTrue result ↔ IsResult (Some (shown_results results)) given }
{
    match (results, given) {
        (Results::NoResult, None) => true,
        (Results::OneOf(numbers), Some(n)) => numbers.contains(&n),
        (Results::UpTo(most), Some(n)) => n <= most,
        (Results::Count(_, most), Some(n)) => n <= most,
        (Results::AnyI64, Some(_)) => true,
        _ => false,
    }
}

/// A result that is a count does not pass its argument.
fn keeps_count(results: Results, args: &[u64; 8], given: Option<u64>) -> bool
    ensures { IsTrue result ↔ KeepsCount (Some (shown_results results)) args.now given }
{
    match (results, given) {
        (Results::Count(place, _), Some(n)) => n <= argument(args, place),
        _ => true,
    }
}

/// Something is written with this result.
fn is_written(when: When, given: Option<u64>) -> bool
    ensures { result ≡ is_written when given }
{
    match (when, given) {
        (When::Always, _) => true,
        (When::OnlyWith(number), Some(n)) => n == number,
        (When::OnlyWith(_), None) => false,
    }
}

/// The text is the one that is written so with this result.
fn is_text(
    form: Option<WrittenText>,
    args: &[u64; 8],
    given: Option<u64>,
    text: &Option<Text>,
) -> bool
    ensures { IsTrue result ↔ IsText form args.now given text.now }
{
    let Some(form) = form else {
        return text.is_none();
    };
    match (is_written(form.when, given), text) {
        (true, Some(text)) => is_text_of(form, args, given, text),
        (true, None) => false,
        (false, text) => text.is_none(),
    }
}

/// The text stands where it is to, and is no longer than it may be.
fn is_text_of(form: WrittenText, args: &[u64; 8], given: Option<u64>, text: &Text) -> bool
    ensures { IsTrue result ↔ IsTextOf form args.now given text.now }
{
    let len = count_of(text.bytes.as_slice());
    u64::from(text.addr) == argument(args, form.addr)
        && len <= argument(args, form.length)
        && len <= form.most
        && counts(form.counted, given, len)
}

/// How many bytes these are; each is one.
fn count_of(bytes: &[u8]) -> u64
    ensures count { result ≡ length bytes.now }
    ensures octets { All (λ b. b < 2 ^ 8) bytes.now }
{
    bytes.len() as u64
}

/// The result is this number, where it is to count something.
fn counts(counted: bool, given: Option<u64>, len: u64) -> bool
    ensures { IsTrue result ↔ IsCount counted given len }
{
    match (counted, given) {
        (false, _) => true,
        (true, Some(n)) => n == len,
        (true, None) => false,
    }
}

/// The word is the one that is written so with this result and this text.
fn is_word(
    form: Option<WrittenWord>,
    args: &[u64; 8],
    given: Option<u64>,
    text: &Option<Text>,
    word: &Option<Word>,
) -> bool
    ensures { IsTrue result ↔ IsWord form args.now given text.now word.now }
{
    let Some(form) = form else {
        return word.is_none();
    };
    match (is_written(form.when, given), word) {
        (true, Some(word)) => is_word_of(form, args, text, word),
        (true, None) => false,
        (false, word) => word.is_none(),
    }
}

/// The word stands where it is to, is as wide as it is to be, and holds a number that it may be.
fn is_word_of(form: WrittenWord, args: &[u64; 8], text: &Option<Text>, word: &Word) -> bool
    ensures { IsTrue result ↔ IsWordOf form args.now text.now word.now }
{
    u64::from(word.addr) == argument(args, form.addr)
        && word.width == form.width.bytes()
        && form.width.holds(word.value)
        && is_value(form.value, args, text, word.value)
}

/// The word may be this number.
fn is_value(value: WordValue, args: &[u64; 8], text: &Option<Text>, n: u64) -> bool
    ensures { IsTrue result ↔ IsValue value args.now text.now n }
{
    match value {
        WordValue::AnyValue => true,
        WordValue::LengthOfText => match text {
            Some(text) => n == text.bytes.len() as u64,
            None => n == 0,
        },
        WordValue::AtMost(place, most) => n <= argument(args, place) && n <= most,
    }
}
