//! The tokens of a query's text.

ghost use Rattle.std.specs.Prelude.{◌≡◌, map};
ghost use Rattle.sql_parse.specs.Tokens as definition;

use values::{Comparison, Text};

/// A reserved word.
#[derive(Clone, Copy)]
pub enum Keyword {
    And,
    As,
    Asc,
    Count,
    Cross,
    Desc,
    Distinct,
    Exists,
    From,
    Full,
    Group,
    By,
    Having,
    In,
    Inner,
    Is,
    Join,
    Left,
    Max,
    Min,
    Natural,
    Not,
    Null,
    On,
    Or,
    Order,
    Outer,
    Right,
    Select,
    Sum,
    Where,
}

#[derive(Clone, Copy)]
pub enum Symbol {
    OpenParenthesis,
    CloseParenthesis,
    Comma,
    Dot,
    Star,
    Semicolon,
}

#[derive(Drop)]
pub enum TokenKind {
    Keyword(Keyword),
    /// In lower case.
    Name(Text),
    Number(i64),
    /// What stands between the quotes, each doubled quote being one.
    Text(Text),
    Symbol(Symbol),
    Comparison(Comparison),
}

#[derive(Drop)]
pub struct Token {
    pub kind: TokenKind,
    /// Its first byte in the text.
    pub at: usize,
}

/// The reserved words, in lower case.
const RESERVED: [(&str, Keyword); 31] = [
    ("and", Keyword::And),
    ("as", Keyword::As),
    ("asc", Keyword::Asc),
    ("by", Keyword::By),
    ("count", Keyword::Count),
    ("cross", Keyword::Cross),
    ("desc", Keyword::Desc),
    ("distinct", Keyword::Distinct),
    ("exists", Keyword::Exists),
    ("from", Keyword::From),
    ("full", Keyword::Full),
    ("group", Keyword::Group),
    ("having", Keyword::Having),
    ("in", Keyword::In),
    ("inner", Keyword::Inner),
    ("is", Keyword::Is),
    ("join", Keyword::Join),
    ("left", Keyword::Left),
    ("max", Keyword::Max),
    ("min", Keyword::Min),
    ("natural", Keyword::Natural),
    ("not", Keyword::Not),
    ("null", Keyword::Null),
    ("on", Keyword::On),
    ("or", Keyword::Or),
    ("order", Keyword::Order),
    ("outer", Keyword::Outer),
    ("right", Keyword::Right),
    ("select", Keyword::Select),
    ("sum", Keyword::Sum),
    ("where", Keyword::Where),
];

/// What stands beside the word in the list.
fn listed(mut words: &[(&str, Keyword)], word: &str) -> Option<Keyword>
    ensures { result ≡ definition.listed (map (λ x. (x.0.now, x.1)) words.entry.now) word.now }
{
    'words: while let [entry, rest @ ..] = words {
        if word == entry.0 {
            return Some(entry.1);
        }
        words = rest;
    }
    None
}

/// The reserved word that a word in lower case is.
#[tactic(auto, unfolding(crate::specs::Tokens::keyword_of))]
pub fn keyword_of(word: &str) -> Option<Keyword>
    ensures { result ≡ definition.keyword_of word.now }
{
    listed(&RESERVED, word)
}
