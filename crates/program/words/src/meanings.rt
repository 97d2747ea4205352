//! What each code of a refusal means, and an example of it. Each match names all reasons, so that a code without words isn't compiled.

use binder::BindReason;
use schema::SchemaRefusal;
use sql_parse::ParseReason;
use statistics::StatisticsRefusal;
use store::{FieldFault, TableCause};

/// A code in words.
#[derive(Clone, Copy, Debug)]
pub struct Meaning {
    /// What is wrong.
    pub text: &'static str,
    /// What is refused so, and where.
    pub example: &'static str,
}

impl Meaning {
    pub(crate) fn new(text: &'static str, example: &'static str) -> Meaning {
        Meaning { text, example }
    }
}

pub fn of_schema(refusal: SchemaRefusal) -> Meaning {
    match refusal {
        SchemaRefusal::NotJson => Meaning::new(
            "the schema's bytes are not UTF-8, or not JSON",
            "a file with a comma behind the last element of a list",
        ),
        SchemaRefusal::Shape => Meaning::new(
            "a value of the schema has another shape: other keys than those of the format, another type, a kind that is neither INT nor TEXT, a table or a list without columns, or a text that is no name",
            "\"kind\": \"DATE\"; a table \"Emp\", since names are small letters, digits and _",
        ),
        SchemaRefusal::TooMany => Meaning::new(
            "the schema has too many: over 64 tables, 64 columns in a table, 16 unique lists or 16 indexes of a table, or 8 columns in a list",
            "a table of 65 columns",
        ),
        SchemaRefusal::Repeated => Meaning::new(
            "a name stands twice in the schema: of two tables, of two columns of a table, or in a list",
            "\"unique\": [[\"id\", \"id\"]]",
        ),
        SchemaRefusal::UnknownColumn => Meaning::new(
            "a unique list or an index of the schema names no column of its table",
            "\"indexes\": [[\"salary\"]] of a table without that column",
        ),
    }
}

pub fn of_text(reason: ParseReason) -> Meaning {
    match reason {
        ParseReason::NoToken => Meaning::new(
            "no word, number, text or sign of the language begins there, or the bytes are not UTF-8",
            "SELECT id ! FROM emp: P01 at 10",
        ),
        ParseReason::OpenText => Meaning::new(
            "a text begins there and is not closed by a quote",
            "SELECT 'a: P02 at 7",
        ),
        ParseReason::NumberRange => Meaning::new(
            "a number is past 64 bits",
            "SELECT id FROM emp WHERE id = 9223372036854775808: P03 at 30",
        ),
        ParseReason::Unexpected => Meaning::new(
            "what stands there can't follow on what stands before it, or the text ends too early",
            "SELECT id FROM emp LIMIT 1: P04 at 25",
        ),
        ParseReason::TooDeep => Meaning::new(
            "a parenthesis opens there where 64 are open",
            "65 times ( behind SELECT id FROM emp WHERE: P05 at 89",
        ),
        ParseReason::TooLong => Meaning::new(
            "the text has over 65,536 bytes",
            "a text of 65,537 bytes: P06 at 65536",
        ),
    }
}

/// What is wrong with a name.
fn scope_text(reason: BindReason) -> &'static str {
    match reason {
        BindReason::UnknownTable => "the schema has no such table",
        BindReason::UnknownColumn =>
            "no table of the FROM has such a column, or the FROM has no table known by the name before the dot",
        BindReason::AmbiguousName =>
            "the name could mean two columns; the table's name and a dot before it would tell which",
        BindReason::RepeatedName =>
            "the FROM has a table known by this name already; another name behind AS would tell them apart",
        BindReason::MixedKinds => "a number is compared with a text",
        BindReason::UngroupedColumn =>
            "a grouped SELECT shows a column that is neither in GROUP BY nor in an aggregate, HAVING names one, or GROUP BY or HAVING names a column of an enclosing query",
        BindReason::SumOfText => "SUM is of a text",
        BindReason::NotOneColumn => "the subquery of an IN doesn't show one column",
        BindReason::NoOutputColumn => "a key of ORDER BY is no column that the SELECT shows",
        BindReason::TooLarge =>
            "the query is too large: over 24 tables, 8 SELECTs in one another, 1,024 tests, or 512 columns and aggregates",
        BindReason::OuterAggregate => "an aggregate is of a column of an enclosing query",
    }
}

/// A text with such a name.
fn scope_example(reason: BindReason) -> &'static str {
    match reason {
        BindReason::UnknownTable => "SELECT id FROM nope: B01 at 15",
        BindReason::UnknownColumn => "SELECT emp.id FROM emp e: B02 at 7",
        BindReason::AmbiguousName => "SELECT id FROM dept, emp: B03 at 7",
        BindReason::RepeatedName => "SELECT id FROM emp, emp: B04 at 20",
        BindReason::MixedKinds => "SELECT id FROM emp WHERE id = 'x': B05 at 28",
        BindReason::UngroupedColumn => "SELECT name, COUNT(*) FROM dept: B06 at 7",
        BindReason::SumOfText => "SELECT SUM(name) FROM dept: B07 at 7",
        BindReason::NotOneColumn =>
            "SELECT id FROM emp WHERE id IN (SELECT * FROM dept): B08 at 28",
        BindReason::NoOutputColumn => "SELECT id FROM emp ORDER BY pay: B09 at 28",
        BindReason::TooLarge => "25 times dept in a FROM: B10 at 0",
        BindReason::OuterAggregate =>
            "SELECT id FROM dept d WHERE id IN (SELECT MAX(d.id) FROM emp): B11 at 42",
    }
}

pub fn of_scope(reason: BindReason) -> Meaning {
    Meaning::new(scope_text(reason), scope_example(reason))
}

pub fn of_statistics(refusal: StatisticsRefusal) -> Meaning {
    match refusal {
        StatisticsRefusal::NotJson => Meaning::new(
            "the bytes of the statistics are not UTF-8, or not JSON",
            "an empty file",
        ),
        StatisticsRefusal::Shape => Meaning::new(
            "a value of the statistics has another shape: other keys than those of the format, another type, or no whole number from 0 to 18446744073709551615; or the schema has other tables, indexes or columns",
            "\"rows\": -1; no entry for a table of the schema",
        ),
    }
}

fn of_field(fault: FieldFault) -> Meaning {
    match fault {
        FieldFault::NotText => Meaning::new(
            "a field of a TEXT column is not UTF-8",
            "a file that was saved in Latin-1",
        ),
        FieldFault::NotNumber => Meaning::new(
            "a field of an INT column is no whole number of 64 bits in plain decimal",
            "+1, 01, -0, 1.5 and the empty field",
        ),
        FieldFault::BadEscape => Meaning::new(
            "a field begins with a backslash and is neither \\N, which is Null, nor a text behind one more backslash",
            "\\x, which is written \\\\x",
        ),
        FieldFault::NullValue => Meaning::new(
            "a column that is NOT NULL has a Null",
            "\\N in the column id of emp",
        ),
    }
}

pub fn of_table(cause: TableCause) -> Meaning {
    match cause {
        TableCause::OtherLength => Meaning::new(
            "a row has more or fewer fields than the table has columns",
            "10,1,500 in emp, which has four columns",
        ),
        TableCause::OtherHeader => Meaning::new(
            "the file's first row is not the names of the columns, in order",
            "ID,dept,pay,badge for id,dept,pay,badge",
        ),
        TableCause::Field(_, fault) => of_field(fault),
        TableCause::Repeated(_) => Meaning::new(
            "the values of a unique list stand in an earlier row already",
            "two rows of emp with the id 10: T06 emp row 4 and 1",
        ),
        TableCause::TooMany => Meaning::new(
            "the table has over 1,000,000 rows",
            "a file of 1,000,001 rows behind its header",
        ),
    }
}

/// T08, which no reason stands for.
pub const TABLE_UNREAD: Meaning = Meaning {
    text: "the file of a table could not be read to its end",
    example: "a folder in the place of emp.csv: device T08 emp",
};

/// L01, which no reason stands for.
pub const NOT_LEAST: Meaning = Meaning {
    text: "the labels don't show that no plan of the certificate's lines costs less: by the statistics one says more than a plan costs over the others, or another cost than the plan's, or it is missing, stands twice or is of no goal",
    example: "the label 0 - 141 where a scan of class 0 costs 140",
};

/// X01, which no reason stands for.
pub const TOO_MANY_ROWS: Meaning = Meaning {
    text: "the answer has more than 4,611,686,018,427,387,904 rows, which is 2 to the power of 62",
    example: "four tables of 1,000,000 rows each, joined without a condition",
};

/// X02, which no reason stands for.
pub const OUTPUT_FAILED: Meaning = Meaning {
    text: "the answer could not be written to its end",
    example: "a full disk: device X02",
};
