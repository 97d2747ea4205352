//! From a text to its tokens, each the longest that fits.

ghost use Rattle.std.specs.Prelude.{◌≡◌, ◌<◌, ◌≤◌, length, take, drop, slice_index, option_map, IfOk, IfErr, IsTrue, List};
ghost use Rattle.std.specs.Str.{IsAscii};
ghost use Rattle.std.specs.List.{prefix_len};
ghost use Rattle.values.specs.Faults.{Gives};
ghost use Rattle.sql_parse.specs.Reading as spec;
ghost use Rattle.sql_parse.specs.Tokens as definition;
ghost use Rattle.sql_parse.specs.ReadingFaults.{IfRefused};

use crate::fault::{ParseFault, ParseReason, refused};
use crate::token::{Symbol, Token, TokenKind, keyword_of};
use std::alloc::{AllocError, Global};
use values::{Comparison, Text};

fn is_space(byte: u8) -> bool
    ensures { result ≡ definition.is_space byte }
{
    byte == b' ' || byte == b'\t' || byte == b'\r' || byte == b'\n'
}

fn is_word_start(byte: u8) -> bool
    ensures { result ≡ definition.is_word_start byte }
{
    byte.is_ascii_alphabetic() || byte == b'_'
}

fn is_word_character(byte: u8) -> bool
    ensures { result ≡ definition.is_word_character byte }
{
    is_word_start(byte) || byte.is_ascii_digit()
}

/// What a run of bytes is made of.
#[derive(Clone, Copy)]
enum Class {
    Space,
    Word,
    Digit,
}

impl Class {
    fn has(self, byte: u8) -> bool
        ensures { result ≡ spec.has self byte }
    {
        match self {
            Class::Space => is_space(byte),
            Class::Word => is_word_character(byte),
            Class::Digit => byte.is_ascii_digit(),
        }
    }
}

/// How many of the first bytes are of the class.
fn run_len(class: Class, bytes: &[u8]) -> usize
    ensures { result ≡ prefix_len (spec.has class) bytes.now }
{
    for (i, byte) in bytes.iter().enumerate() {
        if !class.has(*byte) {
            return i;
        }
    }
    bytes.len()
}

/// The byte at a place of the text, 0 past its end.
fn byte_at(text: &str, place: usize) -> u8
    ensures { result ≡ slice_index text.now place }
{
    text.as_bytes().get(place).copied().unwrap_or(0)
}

/// The text in two: its first bytes, which are ASCII, and what is behind them.
fn cut(text: &str, len: usize) -> (&str, &str)
    requires { spec.IsCut text.now len }
    ensures front { result.0.now ≡ take len text.now }
    ensures behind { result.1.now ≡ drop len text.now }
{
    text.split_at(len)
}

/// A token, and the text behind it.
type Lexed<'t> = (TokenKind, &'t str);

/// The reserved word or the name at the front of the text.
#[tactic(auto, unfolding(crate::specs::Reading::word_at))]
fn word(alloc: Global, text: &str) -> Result<Lexed<'_>, AllocError>
    ensures { IfOk result (λ x. (x.0, x.1.now) ≡ spec.word_at text.now) }
{
    let (word, behind) = cut(text, run_len(Class::Word, text.as_bytes()));
    let mut lower = String::from_str(alloc, word)?;
    lower.make_ascii_lowercase();
    let kind = match keyword_of(lower.as_str()) {
        Some(keyword) => TokenKind::Keyword(keyword),
        None => TokenKind::Name(Text::new(lower)),
    };
    Ok((kind, behind))
}

#[tactic(auto, unfolding(crate::specs::Reading::number_len))]
fn number_len(bytes: &[u8]) -> usize
    ensures { result ≡ spec.number_len bytes.now }
{
    match bytes {
        [b'-', digits @ ..] => 1 + run_len(Class::Digit, digits),
        _ => run_len(Class::Digit, bytes),
    }
}

/// The number at the front of the text, which stands at `at`.
#[tactic(auto, unfolding(crate::specs::Reading::number_at))]
fn number(at: usize, text: &str) -> Result<Lexed<'_>, ParseFault>
    requires { IsTrue (spec.starts_number text.now) }
    ensures { Gives (λ x. (x.0, x.1.now)) result (spec.number_at at text.now) }
{
    let (word, behind) = cut(text, number_len(text.as_bytes()));
    match word.parse::<i64>() {
        Ok(value) => Ok((TokenKind::Number(value), behind)),
        Err(_) => Err(refused(ParseReason::NumberRange, at)),
    }
}

/// A text, from behind its opening quote; `None` where no quote closes it.
fn quoted(alloc: Global, behind: &str) -> Result<Option<(Text, &str)>, AllocError>
    ensures { IfOk result (λ found. option_map (λ x. (x.0, x.1.now)) found ≡ spec.quoted_at behind.now) }
{
    let mut value = String::new(alloc);
    let mut rest = behind;
    while let Some((before, after)) = rest.split_once('\'') {
        value.push_str(before)?;
        match after.strip_prefix('\'') {
            Some(more) => {
                value.push('\'')?;
                rest = more;
            }
            None => return Ok(Some((Text::new(value), after))),
        }
    }
    Ok(None)
}

/// The text token at the front of the text, which stands at `at`.
#[tactic(auto, unfolding(crate::specs::Reading::text_at))]
fn text_token(alloc: Global, at: usize, text: &str) -> Result<Lexed<'_>, ParseFault>
    requires { slice_index text.now 0 ≡ 39 }
    ensures { Gives (λ x. (x.0, x.1.now)) result (spec.text_at at text.now) }
{
    let (_, behind) = cut(text, 1);
    match quoted(alloc, behind)? {
        Some((value, behind)) => Ok((TokenKind::Text(value), behind)),
        None => Err(refused(ParseReason::OpenText, at)),
    }
}

#[tactic(auto, unfolding(crate::specs::Reading::symbol_of))]
fn symbol_of(first: u8) -> Option<Symbol>
    ensures { result ≡ spec.symbol_of first }
{
    match first {
        b'(' => Some(Symbol::OpenParenthesis),
        b')' => Some(Symbol::CloseParenthesis),
        b',' => Some(Symbol::Comma),
        b'.' => Some(Symbol::Dot),
        b'*' => Some(Symbol::Star),
        b';' => Some(Symbol::Semicolon),
        _ => None,
    }
}

/// The comparison that begins with these two bytes, and how many of them it takes.
#[tactic(auto, unfolding(crate::specs::Reading::comparison_of))]
fn comparison_of(first: u8, second: u8) -> Option<(Comparison, usize)>
    ensures { result ≡ spec.comparison_of first second }
{
    match (first, second) {
        (b'=', _) => Some((Comparison::Equal, 1)),
        (b'<', b'=') => Some((Comparison::LessOrEqual, 2)),
        (b'<', b'>') => Some((Comparison::NotEqual, 2)),
        (b'<', _) => Some((Comparison::Less, 1)),
        (b'>', b'=') => Some((Comparison::GreaterOrEqual, 2)),
        (b'>', _) => Some((Comparison::Greater, 1)),
        (b'!', b'=') => Some((Comparison::NotEqual, 2)),
        _ => None,
    }
}

/// The symbol or comparison that begins with these two bytes, and how many of them it takes.
#[tactic(auto, unfolding(crate::specs::Reading::sign_of))]
fn sign_of(first: u8, second: u8) -> Option<(TokenKind, usize)>
    ensures { result ≡ spec.sign_of first second }
{
    if let Some(symbol) = symbol_of(first) {
        return Some((TokenKind::Symbol(symbol), 1));
    }
    let (comparison, len) = comparison_of(first, second)?;
    Some((TokenKind::Comparison(comparison), len))
}

/// The symbol or comparison at the front of the text, which stands at `at`.
#[tactic(auto, unfolding(crate::specs::Reading::sign_at))]
fn sign(at: usize, text: &str) -> Result<Lexed<'_>, ParseFault>
    ensures { Gives (λ x. (x.0, x.1.now)) result (spec.sign_at at text.now) }
{
    match sign_of(byte_at(text, 0), byte_at(text, 1)) {
        Some((kind, len)) => Ok((kind, cut(text, len).1)),
        None => Err(refused(ParseReason::NoToken, at)),
    }
}

/// The token at the front of the text, which stands at `at`.
#[tactic(auto, unfolding(crate::specs::Reading::token_at))]
fn token(alloc: Global, at: usize, text: &str) -> Result<Lexed<'_>, ParseFault>
    ensures { Gives (λ x. (x.0, x.1.now)) result (spec.token_at at text.now) }
{
    let first = byte_at(text, 0);
    if is_word_start(first) {
        return Ok(word(alloc, text)?);
    }
    if first.is_ascii_digit() || first == b'-' && byte_at(text, 1).is_ascii_digit() {
        return number(at, text);
    }
    if first == b'\'' {
        return text_token(alloc, at, text);
    }
    sign(at, text)
}

/// What is behind the white space at the front.
fn trimmed(text: &str) -> &str
    ensures { result.now ≡ drop (prefix_len definition.is_space text.now) text.now }
{
    cut(text, run_len(Class::Space, text.as_bytes())).1
}

/// All tokens of a text, or the first place where there is none.
pub fn tokens(alloc: Global, text: &str) -> Result<Vec<Token>, ParseFault>
    ensures found { IfOk result (λ tokens. definition.AreTokens text.now tokens.items) }
    ensures only { (tokens : List Token) → definition.AreTokens text.now tokens → Gives (λ v. v.items) result (Ok tokens) }
    ensures fault { IfErr result (λ fault. IfRefused fault (definition.IsLexicalFault text.now)) }
{
    let mut tokens = Vec::new(alloc);
    let mut rest = trimmed(text);
    while !rest.is_empty() {
        let at = text.len() - rest.len();
        let (kind, behind) = token(alloc, at, rest)?;
        tokens.push(Token { kind, at })?;
        rest = trimmed(behind);
    }
    Ok(tokens)
}
