//! Why a table could not be loaded.

ghost use Rattle.std.specs.Prelude.{◌≡◌};
ghost use Rattle.store.specs.Faults.{code_of, column_of, earlier_of};

use thiserror::Error;

/// What is wrong with a field. A bad escape is tested first.
#[derive(Clone, Copy, Debug, Error)]
pub enum FieldFault {
    #[error("a field begins with a backslash and is neither Null nor an escaped text")]
    BadEscape,
    #[error("a field of an INT column is no whole number of 64 bits")]
    NotNumber,
    #[error("a field of a TEXT column is not UTF-8")]
    NotText,
    #[error("a column that is NOT NULL has a Null")]
    NullValue,
}

/// What is wrong with a record. Columns and earlier rows are reported by their places, columns from 0 and rows from 1.
#[derive(Clone, Copy, Debug, Error)]
pub enum TableCause {
    #[error("the first record is not the names of the columns")]
    OtherHeader,
    #[error("a record has more or fewer fields than the table has columns")]
    OtherLength,
    #[error("column {0}: {1}")]
    Field(usize, FieldFault),
    #[error("a unique list of row {0} is repeated")]
    Repeated(usize),
    #[error("there are more rows than a table may have")]
    TooMany,
}

/// The first fault of a table's file. Rows are numbered from 1; the header is row 0.
#[derive(Clone, Copy, Debug, Error)]
#[error("row {row}: {cause}")]
pub struct TableRefusal {
    pub row: usize,
    pub cause: TableCause,
}

impl TableRefusal {
    /// The code by which the program reports the refusal.
    pub fn code(self) -> &'static str
        ensures { result.now ≡ code_of self.cause }
    {
        match self.cause {
            TableCause::OtherLength | TableCause::Field(_, FieldFault::NotText) => "T01",
            TableCause::OtherHeader => "T02",
            TableCause::Field(_, FieldFault::NotNumber) => "T03",
            TableCause::Field(_, FieldFault::BadEscape) => "T04",
            TableCause::Field(_, FieldFault::NullValue) => "T05",
            TableCause::Repeated(_) => "T06",
            TableCause::TooMany => "T07",
        }
    }

    /// The place of the column whose field is at fault, if it is one field.
    pub fn column(self) -> Option<usize>
        ensures { result ≡ column_of self.cause }
    {
        match self.cause {
            TableCause::Field(column, _) => Some(column),
            _ => None,
        }
    }

    /// The row that is repeated, if it is that.
    pub fn earlier(self) -> Option<usize>
        ensures { result ≡ earlier_of self.cause }
    {
        match self.cause {
            TableCause::Repeated(earlier) => Some(earlier),
            _ => None,
        }
    }
}

/// Why a table was not loaded.
#[derive(Debug, Drop, Error)]
pub enum TableFault {
    #[error("out of memory")]
    Memory,
    #[error("the device failed")]
    Device,
    #[error(transparent)]
    Refused(TableRefusal),
}
