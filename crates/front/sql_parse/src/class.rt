//! The classes of tokens, which are all that the grammar sees of them.

ghost use Rattle.std.specs.Prelude.{◌≡◌};
ghost use Rattle.sql_parse.specs.Classes.{keyword_number, symbol_number, class_number, kind_number};

use crate::token::{Keyword, Symbol, TokenKind};

/// What the grammar sees of a token.
#[derive(Clone, Copy)]
pub enum Class {
    Keyword(Keyword),
    Symbol(Symbol),
    Name,
    Number,
    Text,
    Comparison,
}

fn number_of_keyword(keyword: Keyword) -> u8
    ensures { result ≡ keyword_number keyword }
{
    keyword as u8
}

fn number_of_symbol(symbol: Symbol) -> u8
    ensures { result ≡ symbol_number symbol }
{
    match symbol {
        Symbol::OpenParenthesis => 31,
        Symbol::CloseParenthesis => 32,
        Symbol::Comma => 33,
        Symbol::Dot => 34,
        Symbol::Star => 35,
        Symbol::Semicolon => 36,
    }
}

impl Class {
    /// Each class has a number of its own.
    pub fn number(self) -> u8
        ensures { result ≡ class_number self }
    {
        match self {
            Class::Keyword(keyword) => number_of_keyword(keyword),
            Class::Symbol(symbol) => number_of_symbol(symbol),
            Class::Name => 37,
            Class::Number => 38,
            Class::Text => 39,
            Class::Comparison => 40,
        }
    }
}

/// The number of a token's class.
pub fn number_of(kind: &TokenKind) -> u8
    ensures { result ≡ kind_number kind.now }
{
    match kind {
        TokenKind::Keyword(keyword) => number_of_keyword(*keyword),
        TokenKind::Symbol(symbol) => number_of_symbol(*symbol),
        TokenKind::Name(_) => 37,
        TokenKind::Number(_) => 38,
        TokenKind::Text(_) => 39,
        TokenKind::Comparison(_) => 40,
    }
}

/// The clause in which a condition stands. An ON has no subqueries.
#[derive(Clone, Copy)]
pub enum Clause {
    Where,
    On,
}
