//! Cuts a text into tokens.
ghost use Rattle.std.specs.Prelude.{◌≡◌, ◌&&◌, ◌<◌, ◌≤◌, ◌+◌, ◌^◌, ◌-◌, map, length, min, slice_index, IfOk, Some, None, option_map, IfSome, OnOk, drop, true};
ghost use Rattle.std.specs.Str.{str_eq_ignore_ascii_case};
ghost use Rattle.std.specs.List.{prefix_len, take_while, list_all};
ghost use Rattle.sql_reader.specs.Lexing as spec;

use crate::bytes::byte;
use crate::quote::Quote;
use crate::symbols::{OF_FIVE, OF_FOUR, OF_SIX, OF_THREE, OF_TWO, Symbol};
use crate::tokens::Token;
use crate::word::Word;
use seata_types::NoMemory;
use seata_types::limits::{NAME_BYTES, TEXT_BYTES};
use std::alloc::Global;

fn is_blank(b: u8) -> bool
    ensures { result ≡ spec.is_blank b }
{
    b == b' ' || b == b'\n' || b == b'\r' || b == b'\t'
}

fn is_word_byte(b: u8) -> bool
    ensures { result ≡ spec.is_word_byte b }
{
    b.is_ascii_alphanumeric() || b == b'_'
}

fn is_name_byte(b: u8) -> bool
    ensures { result ≡ spec.is_name_byte b }
{
    b.is_ascii_lowercase() || b.is_ascii_digit() || b == b'_'
}

fn is_printable(b: u8) -> bool
    ensures { result ≡ spec.is_printable b }
{
    b >= 32 && b != 127
}

fn word_len(z: &[u8]) -> usize
    ensures value { result ≡ prefix_len spec.is_word_byte z.now }
    ensures within { result ≤ length z.now }
{
    let mut end = 0;
    while end < z.len() && is_word_byte(z[end]) {
        end += 1;
    }
    end
}

fn digits_len(z: &[u8]) -> usize
    ensures value { result ≡ prefix_len spec.is_ascii_digit z.now }
    ensures within { result ≤ length z.now }
{
    let mut end = 0;
    while end < z.len() && z[end].is_ascii_digit() {
        end += 1;
    }
    end
}

/// Whether two words are alike but for the case of letters.
fn same_word(a: &[u8], b: &[u8]) -> bool
    ensures { result ≡ str_eq_ignore_ascii_case a.now b.now }
{
    a.eq_ignore_ascii_case(b)
}

// Inlined, so that each table's words are constants where they are compared.
#[inline(always)]
fn listed_as(mut table: &[(&[u8], Symbol)], word: &[u8]) -> Option<Symbol>
    ensures { result ≡ spec.listed_as (map (λ k. (k.0.now, k.1)) table.entry.now) word.now }
{
    while let [entry, rest @ ..] = table {
        if same_word(word, entry.0) {
            return Some(entry.1);
        }
        table = rest;
    }
    None
}

/// The keyword that a word is, in any case, looked for among those of its length.
#[tactic(auto, using(crate::proofs::KeywordLengths::keyword_of_two, crate::proofs::KeywordLengths::keyword_of_three, crate::proofs::KeywordLengths::keyword_of_four, crate::proofs::KeywordLengths::keyword_of_five, crate::proofs::KeywordLengths::keyword_of_six, crate::proofs::KeywordLengths::keyword_of_other))]
fn keyword(word: &[u8]) -> Option<Symbol>
    ensures { result ≡ spec.keyword word.now }
{
    match word.len() {
        2 => listed_as(&OF_TWO, word),
        3 => listed_as(&OF_THREE, word),
        4 => listed_as(&OF_FOUR, word),
        5 => listed_as(&OF_FIVE, word),
        6 => listed_as(&OF_SIX, word),
        _ => None,
    }
}

fn has_name_bytes(word: &[u8]) -> bool
    ensures { result ≡ list_all spec.is_name_byte word.now }
{
    word.iter().all(|b| is_name_byte(*b))
}

#[tactic(auto, unfolding(crate::specs::Lexing::has_name_form))]
fn has_name_form(word: &[u8]) -> bool
    ensures { result ≡ spec.has_name_form word.now }
{
    byte(word, 0).is_ascii_lowercase() && word.len() <= NAME_BYTES && has_name_bytes(word)
}

fn number(digits: &[u8]) -> u64
    ensures { result ≡ min (spec.number_after 0 digits.now) (2 ^ 64 - 1) }
{
    let mut number = 0u64;
    for digit in digits {
        number = number
            .saturating_mul(10)
            .saturating_add((*digit as u64).saturating_sub(b'0' as u64));
    }
    number
}

#[tactic(auto, unfolding(crate::specs::Lexing::mark))]
fn mark(b: u8, next: u8) -> Option<(Symbol, usize)>
    ensures value { result ≡ spec.mark b next }
    ensures short { IfSome result (λ m. (1 ≤ m.1) × (m.1 ≤ 2) × (next ≡ 0 → m.1 ≡ 1)) }
{
    match (b, next) {
        (b'(', _) => Some((Symbol::Open, 1)),
        (b')', _) => Some((Symbol::Close, 1)),
        (b',', _) => Some((Symbol::Comma, 1)),
        (b'*', _) => Some((Symbol::Star, 1)),
        (b';', _) => Some((Symbol::Semicolon, 1)),
        (b'+', _) => Some((Symbol::Plus, 1)),
        (b'-', _) => Some((Symbol::Minus, 1)),
        (b'=', _) => Some((Symbol::Equal, 1)),
        (b'<', b'>') => Some((Symbol::NotEqual, 2)),
        (b'<', b'=') => Some((Symbol::LessOrEqual, 2)),
        (b'<', _) => Some((Symbol::Less, 1)),
        (b'>', b'=') => Some((Symbol::GreaterOrEqual, 2)),
        (b'>', _) => Some((Symbol::Greater, 1)),
        (b'!', b'=') => Some((Symbol::NotEqual, 2)),
        _ => None,
    }
}

#[tactic(auto, unfolding(crate::specs::Lexing::word_token))]
fn word_token(word: &str) -> Token<'_>
    ensures { result ≡ spec.word_token word.now }
{
    if let Some(symbol) = keyword(word.as_bytes()) {
        return Token::Symbol(symbol);
    }
    if !has_name_form(word.as_bytes()) {
        return Token::Unknown;
    }
    Token::Name(Word::of(word))
}

/// The word that begins at a place with a letter.
fn word_at(text: &str, at: usize) -> &str
    requires inside { at < length text.now }
    requires letter { spec.is_ascii_alphabetic (slice_index text.now at) ≡ true }
    ensures value { result.now ≡ take_while spec.is_word_byte (drop at text.now) }
    ensures some { 1 ≤ length result.now }
    ensures within { at + length result.now ≤ length text.now }
{
    let len = word_len(&text.as_bytes()[at..]);
    &text[at..at + len]
}

/// Whether bytes have no control character, with this one behind them.
fn still_plain(is_plain: bool, b: u8) -> bool
    ensures { result ≡ (is_plain && spec.is_printable b) }
{
    is_plain && is_printable(b)
}

/// What a text is, by what follows its opening quote: how many bytes it takes from there on, and whether
/// its value has the form of a text; none where it isn't closed.
#[tactic(auto, unfolding(crate::specs::Lexing::has_text_form))]
fn text_form(z: &[u8]) -> Option<(usize, bool)>
    ensures value { result ≡ option_map (λ f. (f.1, spec.has_text_form f.0)) (spec.text_at z.now) }
    ensures within { IfSome result (λ f. f.0 ≤ length z.now) }
{
    let mut len = 0;
    let mut is_plain = true;
    let mut at = 0;
    while at < z.len() {
        if z[at] == b'\'' {
            at += 1;
            if byte(z, at) != b'\'' {
                return Some((at, len <= TEXT_BYTES && is_plain));
            }
        }
        is_plain = still_plain(is_plain, z[at]);
        len += 1;
        at += 1;
    }
    None
}

/// The token of a text, by what follows its opening quote, and how many bytes it has.
fn text_token(rest: &str) -> (Token<'_>, usize)
    ensures value { result ≡ spec.text_by rest.now (spec.text_at rest.now) }
    ensures within { (1 ≤ result.1) × (result.1 ≤ length rest.now + 1) }
{
    match text_form(rest.as_bytes()) {
        Some((len, true)) => (Token::Quoted(Quote::before(rest)), len + 1),
        Some((len, false)) => (Token::BadText, len + 1),
        None => (Token::BadText, rest.len() + 1),
    }
}

// Inlined, so that a token stays in registers up to its place in the list.
#[inline(always)]
#[tactic(auto, unfolding(crate::specs::Lexing::token_at))]
fn token_at(text: &str, at: usize) -> (Token<'_>, usize)
    requires { at < length text.now }
    ensures value { result ≡ spec.token_at (drop at text.now) }
    ensures within { (1 ≤ result.1) × (at + result.1 ≤ length text.now) }
{
    let z = &text.as_bytes()[at..];
    let first = byte(z, 0);
    if first.is_ascii_alphabetic() {
        let word = word_at(text, at);
        return (word_token(word), word.len());
    }
    if first.is_ascii_digit() {
        let len = digits_len(z);
        return (Token::Number(number(&z[..len])), len);
    }
    if first == b'\'' {
        return text_token(&text[at + 1..]);
    }
    match mark(first, byte(z, 1)) {
        Some((symbol, len)) => (Token::Symbol(symbol), len),
        None => (Token::Unknown, 1),
    }
}

/// Puts the tokens of a text into a list, in place of those that it has.
pub fn lex<'a>(text: &'a str, tokens: &mut Vec<Token<'a>>) -> Result<(), NoMemory>
    ensures { OnOk result (tokens.new.items ≡ spec.tokens text.now) }
{
    let bytes = text.as_bytes();
    tokens.clear();
    // Most texts have at most two tokens for each five bytes; in steps of 16, so that the next text finds
    // room of the same size.
    let room = bytes.len() / 40 * 16 + 16;
    if tokens.reserve(room).is_err() {
        return Err(NoMemory);
    }
    let mut at = 0;
    while at < bytes.len() {
        if is_blank(bytes[at]) {
            at += 1;
        } else {
            let (token, len) = token_at(text, at);
            if tokens.push(token).is_err() {
                return Err(NoMemory);
            }
            at += len;
        }
    }
    Ok(())
}

/// The bytes at which the tokens of a text begin.
pub fn places(alloc: Global, text: &str) -> Result<Vec<usize>, NoMemory>
    ensures { IfOk result (λ found. found.items ≡ spec.places text.now) }
{
    let bytes = text.as_bytes();
    let mut places = Vec::new(alloc);
    let mut at = 0;
    while at < bytes.len() {
        if is_blank(bytes[at]) {
            at += 1;
        } else {
            let (_, len) = token_at(text, at);
            places.push(at)?;
            at += len;
        }
    }
    Ok(places)
}
