//! Tables loaded from CSV files, one after another, and by devices that fail.

use fixtures::{
    COMPANY, Reporting, StepReporting, differences, push_cell, push_lines, push_number,
    report_steps, spelt,
};
use std::alloc::{AllocError, Global};
use std::io;
use std::io::{ErrorKind, Read};
use store::{CountedInput, Database, RowSource, Table, TableFault, TableRefusal};
use values::Cell;

// ---- loads as texts

fn push_optional(
    reported: &mut String,
    before: &str,
    number: Option<usize>,
) -> Result<(), AllocError> {
    match number {
        Some(number) => push_number(reported, before, number),
        None => Ok(()),
    }
}

/// The refusal's code with its row, the earlier row and the column.
fn push_refusal(reported: &mut String, refusal: TableRefusal) -> Result<(), AllocError> {
    reported.push_str(refusal.code())?;
    push_number(reported, " ", refusal.row)?;
    push_optional(reported, " ", refusal.earlier())?;
    push_optional(reported, " in ", refusal.column())
}

/// How a load went.
pub fn push_outcome(
    reported: &mut String,
    outcome: Result<(), TableFault>,
) -> Result<(), AllocError> {
    match outcome {
        Ok(()) => reported.push_str("loaded"),
        Err(TableFault::Memory) => reported.push_str("memory"),
        Err(TableFault::Device) => reported.push_str("device"),
        Err(TableFault::Refused(refusal)) => push_refusal(reported, refusal),
    }
}

fn push_field(reported: &mut String, cell: Cell<'_>) -> Result<(), AllocError> {
    if let Cell::Text(text) = cell {
        reported.push_str(" <")?;
        push_lines(reported, text, "~")?;
        return reported.push_str(">");
    }
    reported.push_str(" ")?;
    push_cell(reported, cell)
}

/// A table's rows, each after ` /`, or how many they are if that is more than a few.
fn push_table(reported: &mut String, table: &Table) -> Result<(), AllocError> {
    if table.len() > 9 {
        return push_number(reported, " with rows ", table.len());
    }
    for row in 0..table.len() {
        reported.push_str(" /")?;
        for column in 0..table.width() {
            push_field(reported, table.cell(row, column))?;
        }
    }
    Ok(())
}

// ---- devices

/// Gives few bytes a call, and fails at one of its calls.
#[derive(Drop)]
struct Trickle<'b> {
    left: &'b [u8],
    calls: usize,
    fails_at: usize,
}

impl Read for Trickle<'_> {
    fn read(&mut self, buffer: &mut [u8]) -> io::Result<usize> {
        let call = self.calls;
        self.calls = call.wrapping_add(1);
        if call == self.fails_at {
            return Err(io::Error::from(ErrorKind::Other));
        }
        let mut rest = self.left;
        let few = buffer.len().min(3);
        let count = rest.read(&mut buffer[..few])?;
        self.left = rest;
        Ok(count)
    }
}

/// How a load of a file goes, by a device that fails at one of its calls if one is given.
pub fn outcome(
    alloc: Global,
    database: &mut Database<'_>,
    table: usize,
    left: &[u8],
    fails_at: Option<usize>,
) -> Result<(), TableFault> {
    if table >= database.tables().len() {
        return Err(TableFault::Memory);
    }
    match fails_at {
        Some(fails_at) => {
            let device = Trickle {
                left,
                calls: 0,
                fails_at,
            };
            database.load(alloc, table, &mut CountedInput::new(device))
        }
        None => database.load(alloc, table, &mut CountedInput::new(left)),
    }
}

// ---- files

/// Reports on files, with ` ; ` between them, how each is loaded in the place of the one before as a table of the schema; and
/// the table's rows then. A file is spelt, and ` by ` a number stands behind it if the device fails at that call.
#[derive(Drop)]
struct Loads<'a> {
    schema: &'a str,
    table: usize,
}

impl StepReporting for Loads<'_> {
    fn report(
        &self,
        alloc: Global,
        database: &mut Database<'_>,
        load: &str,
        reported: &mut String,
    ) -> Result<(), AllocError> {
        let (file, call) = load.split_once(" by ").unwrap_or((load, ""));
        let bytes = spelt(alloc, file)?;
        let outcome = outcome(
            alloc,
            database,
            self.table,
            bytes.as_slice(),
            call.parse().ok(),
        );
        push_outcome(reported, outcome)?;
        match database.tables().get(self.table) {
            Some(table) => push_table(reported, table),
            None => reported.push_str(" no table"),
        }
    }
}

impl Reporting for Loads<'_> {
    fn report(&self, alloc: Global, text: &str, reported: &mut String) -> Result<(), AllocError> {
        report_steps(alloc, reported, self.schema, text, self)
    }
}

/// The first faulty record is reported, whatever its fault. In one record a bad field goes before a repeated list, and of two
/// lists the first.
#[test]
fn tables_of_emp(rt: HostRuntime) {
    const CASES: &str = " => T02 0
id,dept,pay~ => T02 0
id,dept,badge,pay~ => T02 0
id,dept,pay,badge~ => loaded
id,dept,pay,badge~10,1,500~ => T01 1
id,dept,pay,badge~10,1,500,7,8~ => T01 1
id,dept,pay,badge~\\N,1,500,7~ => T05 1 in 0
id,dept,pay,badge~\\x,1,+5,7~ => T04 1 in 0
id,dept,pay,badge~10,1,500,7~11,1,+5,\\N~ => T03 2 in 2
id,dept,pay,badge~10,1,500,7~11,1,\\N,\\N~12,3,400,\\N~13,\\N,500,7~ => T06 4 1
id,dept,pay,badge~10,1,500,7~10,1,500,8~11,1,x,9~ => T06 2 1
id,dept,pay,badge~10,1,500,7~11,1,x,9~10,1,500,8~ => T03 2 in 2
id,dept,pay,badge~10,1,500,7~10,1,x,7~ => T03 2 in 2
id,dept,pay,badge~10,1,500,7~11,1,500,8~11,1,500,7~ => T06 3 2
id,dept,pay,badge~10,1,500,7~11,1,500,8~12,1,500,8~10,1,500,9~ => T06 3 2
id,dept,pay,badge~\\a,1,500,7~ => T04 1 in 0
id,dept,pay,badge~1,\\,500,7~ => T04 1 in 1
id,dept,pay,badge~1,\\\\,500,7~ => T03 1 in 1
id,dept,pay,badge~1,,500,7~ => T03 1 in 1
id,dept,pay,badge~1,-0,500,7~ => T03 1 in 1
id,dept,pay,badge~1,00,500,7~ => T03 1 in 1
id,dept,pay,badge~1,-,500,7~ => T03 1 in 1
id,dept,pay,badge~1, 2,500,7~ => T03 1 in 1
id,dept,pay,badge~1,9223372036854775808,500,7~ => T03 1 in 1
id,dept,pay,badge~1,-9223372036854775809,500,7~ => T03 1 in 1
id,dept,pay,badge~-9223372036854775808,9223372036854775807,0,-7~ => loaded / -9223372036854775808 9223372036854775807 0 -7
id,dept,pay,badge~1,^,500,7~ => T03 1 in 1";
    let loads = Loads {
        schema: COMPANY,
        table: 1,
    };
    assert_eq!(rt;
        differences(rt.alloc(), &[CASES], &loads).as_deref(),
        Ok("")
    );
}

/// A device that fails is reported before a fault of what was read, and leaves the table as it was.
#[test]
fn tables_of_dept(rt: HostRuntime) {
    const CASES: &str = "id,name,boss~1,ops,10~2,lab,\\N~ => loaded / 1 <ops> 10 / 2 <lab> -
id,name,boss\r~1,ops,10\r~ => loaded / 1 <ops> 10
\u{FEFF}id,name,boss~1,ops,10~ => loaded / 1 <ops> 10
~id,name,boss~~1,ops,10~~ => loaded / 1 <ops> 10
id,name,boss~1,\"a \"\"b\"\", c~d\",10 => loaded / 1 <a \"b\", c~d> 10
id,name,boss~1,,10~ => loaded / 1 <> 10
id,name,boss~1,\\\\a,10~ => loaded / 1 <\\a> 10
id,name,boss~1,\\\\,10~ => loaded / 1 <\\> 10
id,name,boss~1,N,10~ => loaded / 1 <N> 10
id,name,boss~1,\\a,10~ => T04 1 in 1
id,name,boss~1,\\NN,10~ => T04 1 in 1
id,name,boss~1,\\N,10~ => T05 1 in 1
id,name,boss~7,a,10~8,a,10~7,a,10~ => T06 3 1
id,name,boss~1,^,10~ => T01 1 in 1";
    const DEVICES: &str =
        "id,name,boss~1,ops,10~ ; id,name,boss~ by 0 ; id,name,boss~ by 1 ; id,name,boss~ by 2 => loaded / 1 <ops> 10 ; device / 1 <ops> 10 ; device / 1 <ops> 10 ; device / 1 <ops> 10
id,name,boss~1,ops,10~ ; id,name,boss~ by 3 ; id,name,boss~ by 4 ; id,name,boss~ by 5 => loaded / 1 <ops> 10 ; device / 1 <ops> 10 ; device / 1 <ops> 10 ; device / 1 <ops> 10
id,name,boss~1,ops,10~ ; no by 1 ; id~ => loaded / 1 <ops> 10 ; device / 1 <ops> 10 ; T02 0 / 1 <ops> 10
id,name,boss~1,ops,10~ ; id,name,boss~ by 6 ; id~ => loaded / 1 <ops> 10 ; loaded ; T02 0";
    let loads = Loads {
        schema: COMPANY,
        table: 0,
    };
    assert_eq!(rt;
        differences(rt.alloc(), &[CASES, DEVICES], &loads).as_deref(),
        Ok("")
    );
}

#[test]
fn a_table_is_bounded(rt: HostRuntime) {
    const SCHEMA: &str =
        r#"{"tables":[{"name":"t","columns":[{"name":"a","kind":"INT","not_null":true}],"unique":[],"indexes":[]}]}"#;
    const CASES: &str =
        "a~|1000000*1~ ; a~|1000000*1~|x~ => loaded with rows 1000000 ; T07 1000001 with rows 1000000";
    let loads = Loads {
        schema: SCHEMA,
        table: 0,
    };
    assert_eq!(rt;
        differences(rt.alloc(), &[CASES], &loads).as_deref(),
        Ok("")
    );
}

// ---- files that are cut

/// Reports what `emp` is by a file that ends after so many of its bytes as the text says, from the one number to the other:
/// once if it is the same after each.
struct Cuts;

impl Cuts {
    const FILE: &'static str = "id,dept,pay,badge~10,1,500,7~11,1,\\N,\\N~";

    fn report_cut(alloc: Global, cut: usize, reported: &mut String) -> Result<(), AllocError> {
        let mut own = String::new(alloc);
        let loads = Loads {
            schema: COMPANY,
            table: 1,
        };
        let file = Cuts::FILE.get(..cut).unwrap_or("no cut");
        Reporting::report(&loads, alloc, file, &mut own)?;
        if own != *reported {
            reported.push_str(own.as_str())?;
        }
        Ok(())
    }
}

impl Reporting for Cuts {
    fn report(&self, alloc: Global, text: &str, reported: &mut String) -> Result<(), AllocError> {
        let (first, last) = text.split_once(" ").unwrap_or((text, text));
        let (Ok(first), Ok(last)) = (first.parse::<usize>(), last.parse::<usize>()) else {
            return reported.push_str("no numbers");
        };
        for cut in first..=last {
            Cuts::report_cut(alloc, cut, reported)?;
        }
        Ok(())
    }
}

#[test]
fn a_file_is_cut(rt: HostRuntime) {
    const CASES: &str = "0 16 => T02 0
17 18 => loaded
19 26 => T01 1
27 27 => T03 1 in 3
28 29 => loaded / 10 1 500 7
30 36 => T01 2
37 37 => T03 2 in 3
38 38 => T04 2 in 3
39 40 => loaded / 10 1 500 7 / 11 1 - -";
    assert_eq!(rt; differences(rt.alloc(), &[CASES], &Cuts).as_deref(), Ok(""));
}
