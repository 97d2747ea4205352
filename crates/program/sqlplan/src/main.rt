//! Answers queries over tables in files, by checked plans.
#![tactic(auto)]

ghost use Rattle.std.specs.Prelude.{◌≡◌, Ok, length, vec_len, string_bytes, IfOk, IfErr};
ghost use Rattle.schema.specs.Reading.{schema_of};
ghost use Rattle.sqlplan.specs.Stops.{SaysFile, SaysTable, table_path};

mod arguments;
mod clock;
mod explained;
mod said;
mod stop;

use answer_text::CountedOutput;
use arguments::arguments;
use clap::ArgMatches;
use clap::error::ErrorKind;
use clock::Clock;
use console::{Progress, TableFile, TableWatch, WatchedOutput, command};
use devices::{ReadFailure, StandardStream, read_file, write_file};
use explained::{Inputs, file_in_words, in_words, schema_in_words};
use input_hints::{FoundRow, found_row};
use pipeline::{
    Exploration, PlanForm, Refusal, ReportForm, check, check_least, evaluate, explain,
    explain_least, plan, plan_with_labels, query, query_measured, run,
};
use said::Words;
use schema::{Schema, SchemaFault};
use std::alloc::{AllocError, Global};
use std::fs;
use std::fs::File;
use std::io::{BufWriter, IsTerminal, Write};
use std::process::ExitCode;
use stop::Stop;
use words::{list_of_codes, readable};

/// The stop of a file that can't be opened or read, worded as is asked.
fn failed_file(alloc: Global, path: &str, failure: &ReadFailure, words: Words) -> Stop
    ensures { SaysFile path.now result }
{
    let stop = Stop::of_file(alloc, path, failure);
    file_in_words(alloc, stop, failure, words)
}

/// The bytes of a file.
fn bytes_of(rt: &HostRuntime, path: &str, words: Words) -> Result<Vec<u8>, Stop>
    ensures { IfErr result (SaysFile path.now) }
{
    match read_file(rt, path) {
        Ok(bytes) => Ok(bytes),
        Err(failure) => Err(failed_file(rt.alloc(), path, &failure, words)),
    }
}

/// The path of a table's file. No folder is the current one.
#[tactic(auto, unfolding(crate::specs::Stops::table_path))]
fn path_of(alloc: Global, folder: &str, name: &str) -> Result<String, AllocError>
    ensures { IfOk result (λ path. string_bytes path ≡ table_path folder.now name.now) }
{
    if folder.is_empty() {
        format!(in alloc; "{name}.csv")
    } else {
        format!(in alloc; "{folder}/{name}.csv")
    }
}

/// How many bytes a file has, where it is one: of a pipe that isn't known.
fn size_of(file: &File) -> Option<u64> {
    let attributes = file.metadata().ok()?;
    if attributes.is_file() {
        Some(attributes.len())
    } else {
        None
    }
}

/// Who is told how far the file of the table with this number has been read.
fn watch_of<'a>(
    schema: &'a Schema,
    number: usize,
    file: &File,
    progress: Option<&'a Progress<'a>>,
) -> Option<TableWatch<'a>> {
    let progress = progress?;
    let tables = schema.tables.as_slice();
    Some(TableWatch {
        progress,
        table: tables.get(number)?.name.as_str(),
        size: size_of(file),
        is_last: number.saturating_add(1) == tables.len(),
    })
}

/// The tables' files, opened in the order of the schema.
fn open_tables<'a>(
    rt: &HostRuntime,
    schema: &'a Schema,
    folder: &str,
    words: Words,
    progress: Option<&'a Progress<'a>>,
) -> Result<Vec<TableFile<'a, File>>, Stop>
    ensures each { IfOk result (λ tables. vec_len tables ≡ length schema.now.tables) }
    ensures fails { IfErr result (SaysTable schema.now folder.now) }
{
    let alloc = rt.alloc();
    let mut tables = Vec::new(alloc);
    for table in schema.tables.as_slice() {
        let path = path_of(alloc, folder, table.name.as_str())?;
        match fs::open(rt, path.as_str()) {
            Ok(file) => {
                let watch = watch_of(schema, tables.len(), &file, progress);
                tables.push(TableFile::new(file, watch))?;
            }
            Err(error) => {
                let failure = ReadFailure::from(error);
                return Err(failed_file(alloc, path.as_str(), &failure, words));
            }
        }
    }
    Ok(tables)
}

/// How a plan is searched for: over a log of so many lines at most, which is explored so far.
#[derive(Clone, Copy)]
struct Search {
    limit: usize,
    exploration: Exploration,
}

/// How a plan is shown, and whether it is said behind it over what it is the cheapest.
#[derive(Clone, Copy)]
struct Showing {
    form: PlanForm,
    is_least: bool,
}

/// What is asked of a query, with the paths of the files besides its schema and its text.
#[derive(Clone, Copy)]
enum Asked<'a> {
    /// Its answer by a plan that was checked, over the tables of a folder; and the plan as it was measured, in this form.
    Query(&'a str, Search, Option<ReportForm>),
    /// Its answer by the slow evaluator, over the tables of a folder.
    Meaning(&'a str),
    /// The certificate of a plan, by statistics.
    Plan(&'a str, Search),
    /// The same, and in a file of this path a plan with its labels.
    PlanWithLabels(&'a str, &'a str, Search),
    /// A plan by statistics, shown so.
    Explain(&'a str, Showing, Search),
    /// Whether a certificate is accepted.
    Check(&'a str),
    /// Whether one with labels is accepted, by statistics.
    CheckLeast(&'a str, &'a str),
    /// Its answer by the plan of a certificate, over the tables of a folder.
    Run(&'a str, &'a str),
}

/// How a plan is shown: as text, unless something else is asked for; nothing where there is no such form.
fn form(arguments: &ArgMatches<'_>) -> Option<PlanForm> {
    match arguments.get_str("format") {
        None | Some("text") => Some(PlanForm::Text),
        Some("dot") => Some(PlanForm::Graph),
        Some("json") => Some(PlanForm::Json),
        Some(_) => None,
    }
}

/// How a plan is shown, where that is known.
fn how_shown(arguments: &ArgMatches<'_>) -> Option<Showing> {
    Some(Showing {
        form: form(arguments)?,
        is_least: arguments.get_flag("least"),
    })
}

/// So many lines a log may have where no limit is given.
const DEFAULT_LIMIT: usize = 20_000;

/// How a plan is searched for: to the limit, where one is given.
fn search_of(arguments: &ArgMatches<'_>) -> Search {
    match arguments.get_one::<usize>("limit") {
        Some(limit) => Search {
            limit,
            exploration: Exploration::ToLimit,
        },
        None => Search {
            limit: DEFAULT_LIMIT,
            exploration: Exploration::WhileWorthwhile,
        },
    }
}

/// In which form the plan that answers is reported, if it is.
fn report_of(arguments: &ArgMatches<'_>) -> Option<ReportForm> {
    match arguments.get_str("explain") {
        Some("json") => Some(ReportForm::Json),
        Some(_) => Some(ReportForm::Text),
        None => None,
    }
}

/// The word with this name. Where the query's text is given by itself it stands at the place of the one before it.
fn word_of<'a>(arguments: &'a ArgMatches<'_>, before: &str, name: &str) -> Option<&'a str> {
    match arguments.get_str("sql") {
        Some(_) => arguments.get_str(before),
        None => arguments.get_str(name),
    }
}

impl<'a> Asked<'a> {
    /// What a command asks.
    fn of(command: &str, arguments: &'a ArgMatches<'_>) -> Option<Asked<'a>> {
        match command {
            "query" => {
                let folder = word_of(arguments, "QUERY", "DIR")?;
                Some(Asked::Query(folder, search_of(arguments), report_of(arguments)))
            }
            "meaning" => Some(Asked::Meaning(word_of(arguments, "QUERY", "DIR")?)),
            "plan" => {
                let statistics = word_of(arguments, "QUERY", "STATS")?;
                let search = search_of(arguments);
                Some(match arguments.get_str("labels") {
                    Some(labels) => Asked::PlanWithLabels(statistics, labels, search),
                    None => Asked::Plan(statistics, search),
                })
            }
            "explain" => {
                let statistics = word_of(arguments, "QUERY", "STATS")?;
                Some(Asked::Explain(statistics, how_shown(arguments)?, search_of(arguments)))
            }
            "check" => Some(Asked::Check(word_of(arguments, "QUERY", "CERT")?)),
            "check-least" => {
                let statistics = word_of(arguments, "QUERY", "STATS")?;
                let labels = word_of(arguments, "STATS", "LABELS")?;
                Some(Asked::CheckLeast(statistics, labels))
            }
            "run" => {
                let certificate = word_of(arguments, "QUERY", "CERT")?;
                Some(Asked::Run(certificate, word_of(arguments, "CERT", "DIR")?))
            }
            _ => None,
        }
    }

    /// The folder of the tables; nothing where a command reads none.
    fn folder(self) -> &'a str {
        match self {
            Asked::Query(folder, _, _) | Asked::Meaning(folder) | Asked::Run(_, folder) => folder,
            Asked::Plan(_, _)
            | Asked::PlanWithLabels(_, _, _)
            | Asked::Explain(_, _, _)
            | Asked::Check(_)
            | Asked::CheckLeast(_, _) => "",
        }
    }
}

/// What says how far a command is. Those that read no table are soon done.
fn progress_of<'a>(rt: &'a HostRuntime, asked: Asked<'_>, lines: bool) -> Option<Progress<'a>> {
    match asked {
        Asked::Query(_, _, _) | Asked::Meaning(_) | Asked::Run(_, _) => Progress::new(rt, lines),
        Asked::Plan(_, _)
        | Asked::PlanWithLabels(_, _, _)
        | Asked::Explain(_, _, _)
        | Asked::Check(_)
        | Asked::CheckLeast(_, _) => None,
    }
}

/// What has been read before a command begins.
#[derive(Clone, Copy)]
struct Given<'a> {
    /// The bytes of the schema, and the schema that they are.
    bytes: &'a [u8],
    schema: &'a Schema,
    text: &'a [u8],
    /// The folder of the tables; nothing where a command reads none.
    folder: &'a str,
    /// The text of a certificate; nothing where a command reads none.
    certificate: &'a [u8],
    /// How a refusal is put in words, if it is.
    words: Words,
    /// What is told how far the work is, where lines are wanted.
    progress: Option<&'a Progress<'a>>,
}

/// Why the table's file was not read to its end that a refusal reports.
fn failure_of<'t>(refusal: &Refusal, tables: &'t [TableFile<'_, File>]) -> Option<&'t ReadFailure> {
    match refusal {
        Refusal::TableDevice(place) => tables.get(*place)?.failure(),
        _ => None,
    }
}

/// The row that a refusal reports, as the table's file has it where that can be read again.
fn found_again(
    alloc: Global,
    refusal: &Refusal,
    schema: &Schema,
    tables: &mut [TableFile<'_, File>],
) -> Option<FoundRow> {
    let Refusal::Table(place, refusal) = refusal else {
        return None;
    };
    let table = schema.tables.as_slice().get(*place)?;
    found_row(alloc, tables.get_mut(*place)?.reader_mut(), table, *refusal)
}

impl<'a> Given<'a> {
    /// The same with the text of a certificate.
    fn with_certificate(self, certificate: &'a [u8]) -> Given<'a> {
        Given {
            certificate,
            ..self
        }
    }

    /// The stop of a refusal, explained if words are asked for: by the statistics, by why a table's file was not read to its end, and by the row
    /// that was found again, where these are at hand.
    fn refused(
        &self,
        alloc: Global,
        refusal: &Refusal,
        statistics: &[u8],
        failure: Option<&ReadFailure>,
        row: Option<&FoundRow>,
    ) -> Stop {
        let stop = Stop::of_refusal(alloc, refusal, Some(self.schema));
        if self.words != Words::None {
            let inputs = Inputs {
                schema: self.schema,
                text: self.text,
                statistics,
                folder: self.folder,
                certificate: self.certificate,
                failure,
                row,
            };
            in_words(alloc, stop, refusal, inputs, self.words)
        } else {
            stop
        }
    }

    /// The end of a command over the files of tables, whose answer went there.
    fn ended_over(
        &self,
        alloc: Global,
        outcome: Result<(), Refusal>,
        output: Output<'_>,
        tables: &mut [TableFile<'_, File>],
    ) -> Result<(), Stop> {
        let Err(refusal) = outcome else {
            return Ok(());
        };
        if is_unread(&refusal, output) {
            return Err(Stop::BrokenPipe);
        }
        let row = if self.words != Words::None {
            found_again(alloc, &refusal, self.schema, tables)
        } else {
            None
        };
        let failure = failure_of(&refusal, tables);
        if failure.is_some_and(|failure| failure.is_memory()) {
            return Err(Stop::Memory);
        }
        Err(self.refused(alloc, &refusal, &[], failure, row.as_ref()))
    }

    /// The end of a command that writes this on standard output.
    fn ended_by(
        &self,
        rt: &HostRuntime,
        outcome: Result<Vec<u8>, Refusal>,
        statistics: &[u8],
    ) -> Result<(), Stop> {
        let refusal = match outcome {
            Ok(bytes) => match print_whole(rt, bytes.as_slice()) {
                Printed::Whole => return Ok(()),
                Printed::Unread => return Err(Stop::BrokenPipe),
                Printed::Failed => Refusal::Output,
            },
            Err(refusal) => refusal,
        };
        Err(self.refused(rt.alloc(), &refusal, statistics, None, None))
    }

    /// The end of a command that says on standard output that something is accepted.
    fn accepted(
        &self,
        rt: &HostRuntime,
        outcome: Result<(), Refusal>,
        statistics: &[u8],
    ) -> Result<(), Stop> {
        let said = match outcome {
            Ok(()) => Ok(Vec::from_slice(rt.alloc(), b"accepted\n")?),
            Err(refusal) => Err(refusal),
        };
        self.ended_by(rt, said, statistics)
    }
}

/// How a write of some bytes on standard output ended.
#[derive(Clone, Copy)]
enum Printed {
    Whole,
    /// Nobody reads it any more.
    Unread,
    Failed,
}

/// Writes on standard output.
fn print_whole(rt: &HostRuntime, bytes: &[u8]) -> Printed {
    let mut output = StandardStream::output(rt);
    match output.write_all(bytes) {
        Ok(()) => Printed::Whole,
        Err(_) if output.is_broken_pipe() => Printed::Unread,
        Err(_) => Printed::Failed,
    }
}

/// Standard output, through a buffer.
type Output<'a> = WatchedOutput<'a, CountedOutput<BufWriter<StandardStream<'a>>>>;

/// Standard output, watched unless it is a terminal: there the rows themselves show how far they are, and lines would stand among them.
fn output<'a>(rt: &'a HostRuntime, progress: Option<&'a Progress<'a>>) -> Result<Output<'a>, Stop> {
    let buffered = BufWriter::new(rt.alloc(), StandardStream::output(rt))?;
    let progress = if rt.stdout().is_terminal() {
        None
    } else {
        progress
    };
    Ok(WatchedOutput::new(CountedOutput::new(buffered), progress))
}

/// Whether an answer could not be written since nobody reads it any more.
fn is_unread(refusal: &Refusal, output: Output<'_>) -> bool {
    let (stream, _) = output.into_inner().into_inner().into_parts();
    matches!(refusal, Refusal::Output) && stream.is_broken_pipe()
}

/// Answers a query on standard output by a plan that was checked. The schema is that of the bytes.
fn answer(rt: &HostRuntime, given: Given<'_>, folder: &str, search: Search) -> Result<(), Stop>
    requires { schema_of given.bytes.now ≡ Ok given.schema.now }
{
    let mut tables = open_tables(rt, given.schema, folder, given.words, given.progress)?;
    let mut output = output(rt, given.progress)?;
    let outcome = query(
        rt.alloc(),
        given.bytes,
        given.text,
        tables.as_mut_slice(),
        search.limit,
        search.exploration,
        &mut output,
    );
    given.ended_over(rt.alloc(), outcome, output, tables.as_mut_slice())
}

/// The same, and on standard error behind the answer the plan that gave it, as it was measured. That it can't be said changes nothing.
fn answer_measured(
    rt: &HostRuntime,
    given: Given<'_>,
    folder: &str,
    search: Search,
    form: ReportForm,
) -> Result<(), Stop>
    requires { schema_of given.bytes.now ≡ Ok given.schema.now }
{
    let mut tables = open_tables(rt, given.schema, folder, given.words, given.progress)?;
    let mut output = output(rt, given.progress)?;
    let outcome = query_measured(
        rt.alloc(),
        given.bytes,
        given.text,
        tables.as_mut_slice(),
        search.limit,
        search.exploration,
        form,
        &mut Clock::new(rt),
        &mut output,
    );
    let (ended, report) = match outcome {
        Ok(report) => (Ok(()), report),
        Err(refusal) => (Err(refusal), Vec::new(rt.alloc())),
    };
    given.ended_over(rt.alloc(), ended, output, tables.as_mut_slice())?;
    let _ = StandardStream::error(rt).write_all(report.as_slice());
    Ok(())
}

/// The same as `answer`, by the slow evaluator.
fn answer_by_meaning(rt: &HostRuntime, given: Given<'_>, folder: &str) -> Result<(), Stop>
    requires { schema_of given.bytes.now ≡ Ok given.schema.now }
{
    let mut tables = open_tables(rt, given.schema, folder, given.words, given.progress)?;
    let mut output = output(rt, given.progress)?;
    let outcome = evaluate(
        rt.alloc(),
        given.bytes,
        given.text,
        tables.as_mut_slice(),
        &mut output,
    );
    given.ended_over(rt.alloc(), outcome, output, tables.as_mut_slice())
}

/// The same by the plan of a certificate.
fn answer_by_certificate(
    rt: &HostRuntime,
    given: Given<'_>,
    certificate: &str,
    folder: &str,
) -> Result<(), Stop>
    requires { schema_of given.bytes.now ≡ Ok given.schema.now }
{
    let certificate = bytes_of(rt, certificate, given.words)?;
    let mut tables = open_tables(rt, given.schema, folder, given.words, given.progress)?;
    let mut output = output(rt, given.progress)?;
    let outcome = run(
        rt.alloc(),
        given.bytes,
        given.text,
        certificate.as_slice(),
        tables.as_mut_slice(),
        &mut output,
    );
    let given = given.with_certificate(certificate.as_slice());
    given.ended_over(rt.alloc(), outcome, output, tables.as_mut_slice())
}

/// Writes on standard output.
fn print_bytes(rt: &HostRuntime, bytes: &[u8]) -> Result<(), Stop> {
    match print_whole(rt, bytes) {
        Printed::Whole => Ok(()),
        Printed::Unread => Err(Stop::BrokenPipe),
        Printed::Failed => Err(Stop::of_refusal(rt.alloc(), &Refusal::Output, None)),
    }
}

/// Writes on standard output the certificate of a plan, by the statistics of a file.
fn plan_by_statistics(
    rt: &HostRuntime,
    given: Given<'_>,
    statistics: &str,
    search: Search,
) -> Result<(), Stop> {
    let statistics = bytes_of(rt, statistics, given.words)?;
    let statistics = statistics.as_slice();
    let outcome = plan(
        rt.alloc(),
        given.bytes,
        given.text,
        statistics,
        search.limit,
        search.exploration,
    );
    given.ended_by(rt, outcome, statistics)
}

/// Makes a file of these bytes, in the place of one that is there.
fn make_file(rt: &HostRuntime, given: Given<'_>, path: &str, bytes: &[u8]) -> Result<(), Stop> {
    match fs::create(rt, path) {
        Ok(mut file) => match write_file(rt, &mut file, bytes) {
            Ok(()) => Ok(()),
            Err(_) => Err(given.refused(rt.alloc(), &Refusal::Output, &[], None, None)),
        },
        Err(error) => {
            let failure = ReadFailure::from(error);
            Err(failed_file(rt.alloc(), path, &failure, given.words))
        }
    }
}

/// Writes on standard output the certificate of a plan, by the statistics of a file, and before that a file of a plan with its labels.
fn plan_with_labels_of(
    rt: &HostRuntime,
    given: Given<'_>,
    statistics: &str,
    labels: &str,
    search: Search,
) -> Result<(), Stop> {
    let statistics = bytes_of(rt, statistics, given.words)?;
    let statistics = statistics.as_slice();
    let outcome = plan_with_labels(
        rt.alloc(),
        given.bytes,
        given.text,
        statistics,
        search.limit,
        search.exploration,
    );
    match outcome {
        Ok(texts) => {
            make_file(rt, given, labels, texts.labels.as_slice())?;
            given.ended_by(rt, Ok(texts.certificate), statistics)
        }
        Err(refusal) => Err(given.refused(rt.alloc(), &refusal, statistics, None, None)),
    }
}

/// Writes on standard output a plan, with what the statistics of a file say of it.
fn explain_by_statistics(
    rt: &HostRuntime,
    given: Given<'_>,
    statistics: &str,
    showing: Showing,
    search: Search,
) -> Result<(), Stop> {
    let statistics = bytes_of(rt, statistics, given.words)?;
    let statistics = statistics.as_slice();
    let (alloc, form) = (rt.alloc(), showing.form);
    let Search { limit, exploration } = search;
    let outcome = if showing.is_least {
        explain_least(
            alloc,
            form,
            given.bytes,
            given.text,
            statistics,
            limit,
            exploration,
        )
    } else {
        explain(
            alloc,
            form,
            given.bytes,
            given.text,
            statistics,
            limit,
            exploration,
        )
    };
    given.ended_by(rt, outcome, statistics)
}

/// Says on standard output that a certificate is accepted, where it is.
fn accept(rt: &HostRuntime, given: Given<'_>, certificate: &str) -> Result<(), Stop> {
    let certificate = bytes_of(rt, certificate, given.words)?;
    let outcome = check(rt.alloc(), given.bytes, given.text, certificate.as_slice());
    let given = given.with_certificate(certificate.as_slice());
    given.accepted(rt, outcome, &[])
}

/// Says on standard output that a certificate is accepted, and shown by its labels to be of the cheapest plan by the statistics of a file, where it is.
fn accept_least(
    rt: &HostRuntime,
    given: Given<'_>,
    statistics: &str,
    labels: &str,
) -> Result<(), Stop> {
    let statistics = bytes_of(rt, statistics, given.words)?;
    let statistics = statistics.as_slice();
    let labels = bytes_of(rt, labels, given.words)?;
    let labels = labels.as_slice();
    let outcome = check_least(rt.alloc(), given.bytes, given.text, statistics, labels);
    given
        .with_certificate(labels)
        .accepted(rt, outcome, statistics)
}

/// Lists on standard output the codes of refusals.
fn explain_codes(rt: &HostRuntime) -> Result<(), Stop> {
    let list = list_of_codes(rt.alloc())?;
    print_bytes(rt, list.as_bytes())
}

/// Does what is asked, once the schema and the query's text have been read.
fn serve(rt: &HostRuntime, asked: Asked<'_>, given: Given<'_>) -> Result<(), Stop>
    requires { schema_of given.bytes.now ≡ Ok given.schema.now }
{
    match asked {
        Asked::Query(folder, search, None) => answer(rt, given, folder, search),
        Asked::Query(folder, search, Some(form)) => {
            answer_measured(rt, given, folder, search, form)
        }
        Asked::Meaning(folder) => answer_by_meaning(rt, given, folder),
        Asked::Plan(statistics, search) => plan_by_statistics(rt, given, statistics, search),
        Asked::PlanWithLabels(statistics, labels, search) => {
            plan_with_labels_of(rt, given, statistics, labels, search)
        }
        Asked::Explain(statistics, showing, search) => {
            explain_by_statistics(rt, given, statistics, showing, search)
        }
        Asked::Check(certificate) => accept(rt, given, certificate),
        Asked::CheckLeast(statistics, labels) => accept_least(rt, given, statistics, labels),
        Asked::Run(certificate, folder) => answer_by_certificate(rt, given, certificate, folder),
    }
}

/// The stop of a schema that is refused. Its text is at hand for the words.
fn refused_schema(alloc: Global, fault: SchemaFault, text: &[u8], words: Words) -> Stop {
    match fault {
        SchemaFault::Memory => Stop::Memory,
        SchemaFault::Refused(refusal) => {
            let stop = Stop::of_refusal(alloc, &Refusal::Schema(refusal), None);
            match words {
                Words::None => stop,
                Words::Lines | Words::Json => { schema_in_words(alloc, stop, refusal, text, words) }
            }
        }
    }
}

/// How a refusal is put in words: as is asked, and on a terminal in lines.
fn words_of(rt: &HostRuntime, arguments: &ArgMatches<'_>) -> Words {
    match arguments.get_str("words") {
        Some("json") => Words::Json,
        Some(_) => Words::Lines,
        None if rt.stderr().is_terminal() => Words::Lines,
        None => Words::None,
    }
}

/// The file of standard input.
const STANDARD_INPUT: &str = "/dev/stdin";

/// The text of the query: given by itself, or that of a file or of standard input.
fn query_text(rt: &HostRuntime, arguments: &ArgMatches<'_>, words: Words) -> Result<Vec<u8>, Stop> {
    if let Some(text) = arguments.get_str("sql") {
        return Ok(Vec::from_slice(rt.alloc(), text.as_bytes())?);
    }
    match arguments.get_str("QUERY") {
        Some("-") => bytes_of(rt, STANDARD_INPUT, words),
        Some(path) => bytes_of(rt, path, words),
        None => Err(Stop::Usage),
    }
}

/// A command. The schema is read and tested before any other file is opened.
fn obey(rt: &HostRuntime, command: &str, arguments: &ArgMatches<'_>) -> Result<(), Stop> {
    if command == "codes" {
        return explain_codes(rt);
    }
    let Some(asked) = Asked::of(command, arguments) else {
        return Err(Stop::Usage);
    };
    let Some(schema) = arguments.get_str("SCHEMA") else {
        return Err(Stop::Usage);
    };
    let words = words_of(rt, arguments);
    let bytes = bytes_of(rt, schema, words)?;
    let bytes = bytes.as_slice();
    match Schema::read(rt.alloc(), bytes) {
        Ok(schema) => {
            let text = query_text(rt, arguments, words)?;
            let progress = progress_of(rt, asked, arguments.get_flag("progress"));
            let given = Given {
                bytes,
                schema: &schema,
                text: text.as_slice(),
                folder: asked.folder(),
                certificate: &[],
                words,
                progress: progress.as_ref(),
            };
            serve(rt, asked, given)
        }
        Err(fault) => Err(refused_schema(rt.alloc(), fault, bytes, words)),
    }
}

/// What the parser of the command line has to say in place of a command. What was asked for, help or the version, goes to standard output.
fn say(rt: &HostRuntime, error: &clap::Error) -> Result<(), Stop> {
    match error.kind() {
        ErrorKind::OutOfMemory => Err(Stop::Memory),
        ErrorKind::DisplayHelp | ErrorKind::DisplayVersion => {
            let text = format!(in rt.alloc(); "{error}")?;
            print_bytes(rt, text.as_bytes())
        }
        _ => {
            let text = format!(in rt.alloc(); "{error}")?;
            let text = readable(rt.alloc(), text.as_str())?;
            let _ = StandardStream::error(rt).write_all(text.as_bytes());
            Err(Stop::Usage)
        }
    }
}

/// Reads the command line and does what it says.
fn start(rt: &HostRuntime) -> Result<(), Stop> {
    let words = arguments(rt)?;
    match command(rt.alloc())?.try_get_matches_from(words.as_slice()) {
        Ok(matches) => match matches.subcommand() {
            Some((command, arguments)) => obey(rt, command, arguments),
            None => Err(Stop::Usage),
        },
        Err(error) => say(rt, &error),
    }
}

fn main(rt: HostRuntime) -> ExitCode {
    match start(&rt) {
        Ok(()) => ExitCode::SUCCESS,
        Err(stop) => {
            stop.report(&rt);
            ExitCode::from(stop.status())
        }
    }
}
