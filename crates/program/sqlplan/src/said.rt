//! What is said of a refusal: in lines for people, or as a JSON object for programs.

ghost use Rattle.std.specs.Prelude.{ℕ, List};
ghost use Rattle.sqlplan.specs.Stops.{Says};

use crate::stop::{Stop, Wording};
use std::alloc::{AllocError, Global};
use words::{Meaning, explanation, explanation_at, place_of};

/// How a refusal is put in words, if it is.
#[derive(Clone, Copy, PartialEq, Eq)]
pub enum Words {
    None,
    /// In lines behind its own.
    Lines,
    /// As an object in the place of its line.
    Json,
}

/// What there is to say of a refusal besides its line.
#[derive(Drop)]
pub struct Said<'a> {
    pub meaning: Option<Meaning>,
    /// The text in which it is reported at a byte, and that byte.
    pub place: Option<(&'a [u8], usize)>,
    /// What more there is to say, in lines of its own.
    pub more: String,
}

/// The code that a line has behind its first word.
fn code_of(line: &str) -> &str {
    line.split(' ').nth(1).unwrap_or("")
}

/// Adds a text between quotes. What would steer a terminal is a space.
fn push_text(object: &mut String, text: &str) -> Result<(), AllocError> {
    object.push('"')?;
    for character in text.chars() {
        if character == '"' || character == '\\' {
            object.push('\\')?;
        }
        object.push(if character.is_control() {
            ' '
        } else {
            character
        })?;
    }
    object.push('"')
}

/// Adds a text, or null.
fn push_some(object: &mut String, text: Option<&str>) -> Result<(), AllocError> {
    match text {
        Some(text) => push_text(object, text),
        None => object.push_str("null"),
    }
}

/// Adds the lines of a text, as an array.
fn push_lines(object: &mut String, text: &str) -> Result<(), AllocError> {
    object.push('[')?;
    let mut is_first = true;
    for line in text.lines() {
        if !is_first {
            object.push(',')?;
        }
        push_text(object, line)?;
        is_first = false;
    }
    object.push(']')
}

/// Adds where a byte of a text stands, or nulls.
fn push_place(object: &mut String, place: Option<(&[u8], usize)>) -> Result<(), AllocError> {
    match place {
        Some((text, at)) => {
            let place = place_of(text, at);
            let (row, column) = (place.line, place.column);
            write!(object, ",\"byte\":{at},\"line\":{row},\"column\":{column}")
        }
        None => object.push_str(",\"byte\":null,\"line\":null,\"column\":null"),
    }
}

impl Said<'_> {
    /// In lines.
    fn in_lines(self, alloc: Global) -> Result<String, AllocError> {
        let Some(meaning) = self.meaning else {
            return Ok(self.more);
        };
        match self.place {
            Some((text, at)) => explanation_at(alloc, meaning, text, at, self.more.as_str()),
            None => explanation(alloc, meaning, self.more.as_str()),
        }
    }

    /// As an object, of the refusal with this line and status.
    fn in_object(self, alloc: Global, line: &str, status: u8) -> Result<String, AllocError> {
        let mut object = String::from_str(alloc, "{\"refusal\":")?;
        push_text(&mut object, line)?;
        write!(&mut object, ",\"status\":{status},\"code\":")?;
        push_some(&mut object, self.meaning.map(|_| code_of(line)))?;
        push_place(&mut object, self.place)?;
        object.push_str(",\"meaning\":")?;
        push_some(&mut object, self.meaning.map(|meaning| meaning.text))?;
        object.push_str(",\"more\":")?;
        push_lines(&mut object, self.more.as_str())?;
        object.push_str(",\"example\":")?;
        push_some(&mut object, self.meaning.map(|meaning| meaning.example))?;
        object.push('}')?;
        Ok(object)
    }

    /// What is said of a line with a status.
    fn worded(
        self,
        alloc: Global,
        line: &str,
        status: u8,
        words: Words,
    ) -> Result<Wording, AllocError> {
        Ok(match words {
            Words::None => Wording::Behind(String::new(alloc)),
            Words::Lines => Wording::Behind(self.in_lines(alloc)?),
            Words::Json => Wording::Instead(self.in_object(alloc, line, status)?),
        })
    }
}

/// A stop, and what is said of it. Without memory for that its line stands alone.
pub fn said_of(alloc: Global, stop: Stop, said: Result<Said<'_>, AllocError>, words: Words) -> Stop
    ensures { (line : List ℕ) (status : ℕ) → Says line status stop → Says line status result }
{
    let Ok(said) = said else {
        return stop;
    };
    let worded = match &stop {
        Stop::Line(line, status, _) => said.worded(alloc, line.as_str(), *status, words),
        Stop::Usage | Stop::Memory | Stop::BrokenPipe => Err(AllocError),
    };
    match worded {
        Ok(wording) => stop.with_wording(wording),
        Err(AllocError) => stop,
    }
}
