//! The program's command line.

use clap::builder::ValueParser;
use clap::{Arg, ArgAction, Command};
use std::alloc::{AllocError, Global};

/// What `--version` says behind the name: the program's version, and the logic that it is proved in, as `rt version` has it of the kit.
const VERSION: &str = "0.1.0 (Rattle, logic dac8208d650f15bf)";

/// An example of each command, at the end of the help.
const EXAMPLES: &str = "\
Examples:
  sqlplan query schema.json query.sql data
  sqlplan query schema.json query.sql data --explain
  sqlplan query schema.json data --sql 'SELECT id FROM emp'
  echo 'SELECT id FROM emp' | sqlplan query schema.json - data
  sqlplan meaning schema.json query.sql data
  sqlplan plan schema.json query.sql stats.json > query.cert
  sqlplan explain schema.json query.sql stats.json --format dot
  sqlplan plan schema.json query.sql stats.json --labels query.least > query.cert
  sqlplan check schema.json query.sql query.cert
  sqlplan check-least schema.json query.sql stats.json query.least
  sqlplan run schema.json query.sql query.cert data
  sqlplan codes
  sqlplan help query";

/// How a plan that has answered may be reported.
const REPORTS: &[&str] = &["text", "json"];

/// How a plan may be shown.
const FORMATS: &[&str] = &["text", "dot", "json"];

/// A word that has to stand there.
fn place<'a>(alloc: Global, name: &'a str, help: &'a str) -> Arg<'a> {
    Arg::new(alloc, name)
        .required(true)
        .action(ArgAction::Set)
        .help(help)
}

/// The last of the words that have to stand there: where the query's text is given by itself, all behind the schema stand a place further to
/// the front, and this one's place is empty.
fn last<'a>(alloc: Global, name: &'a str, help: &'a str) -> Result<Arg<'a>, AllocError> {
    Arg::new(alloc, name)
        .action(ArgAction::Set)
        .help(help)
        .required_unless_present("sql")?
        .conflicts_with("sql")
}

/// The query's text by itself.
fn sql(alloc: Global) -> Arg<'static> {
    Arg::new(alloc, "sql")
        .long("sql")
        .value_name("TEXT")
        .action(ArgAction::Set)
        .help("takes this text for the query, and QUERY is left out")
}

/// How a refusal may be put in words.
const WORDS: &[&str] = &["text", "json"];

/// Whether a refusal is put in words, and how.
fn words(alloc: Global) -> Arg<'static> {
    Arg::new(alloc, "words")
        .long("words")
        .value_name("FORMAT")
        .value_parser(WORDS)
        .num_args(0..=1)
        .require_equals(true)
        .default_missing_value("text")
        .action(ArgAction::Set)
        .help(
            "says behind the line of a refusal what is meant, and where, as on a terminal it does by itself; or json: one object in place of the line",
        )
}

/// A command over a schema and the text of a query, which is called so.
fn of_query<'a>(
    alloc: Global,
    name: &'a str,
    about: &'a str,
    usage: &'a str,
) -> Result<Command<'a>, AllocError> {
    Command::new(alloc, name)
        .about(about)
        .override_usage(usage)
        .arg(place(alloc, "SCHEMA", "the tables and their columns, a JSON file"))?
        .arg(place(
            alloc,
            "QUERY",
            "the text of the query, a file, or - for standard input",
        ))?
        .arg(sql(alloc))?
        .arg(words(alloc))
}

/// Whether lines say how far the work is.
fn progress(alloc: Global) -> Arg<'static> {
    Arg::new(alloc, "progress")
        .long("progress")
        .action(ArgAction::SetTrue)
        .help("says on standard error how far the work is, every two seconds at most")
}

/// What stands at the place of statistics, and of a certificate.
const STATISTICS: &str = "the statistics of the tables, a JSON file";

const CERTIFICATE: &str = "the certificate of a plan, a file";

/// The place of statistics.
fn statistics(alloc: Global) -> Result<Arg<'static>, AllocError> {
    last(alloc, "STATS", STATISTICS)
}

/// How many lines a log may have that a plan is searched for over.
fn limit(alloc: Global) -> Arg<'static> {
    Arg::new(alloc, "limit")
        .long("limit")
        .value_name("LINES")
        .value_parser(ValueParser::unsigned(2_000, 100_000))
        .action(ArgAction::Set)
        .help(
            "explores to so many lines of derivation, 2000 to 100000 [default: while that pays, to 20000]",
        )
}

/// How a plan is shown.
fn format(alloc: Global) -> Arg<'static> {
    Arg::new(alloc, "format")
        .long("format")
        .value_name("FORMAT")
        .value_parser(FORMATS)
        .action(ArgAction::Set)
        .help("text; dot: a graph for Graphviz; or json: an object for each node")
}

/// How the plan that answered is reported, if it is.
fn report(alloc: Global) -> Arg<'static> {
    Arg::new(alloc, "explain")
        .long("explain")
        .value_name("FORMAT")
        .value_parser(REPORTS)
        .num_args(0..=1)
        .require_equals(true)
        .default_missing_value("text")
        .action(ArgAction::Set)
        .help(
            "says on standard error behind the answer the plan that gave it, with the rows and the time of each node, which is run once more for that: text, or json",
        )
}

/// Where a plan goes with the labels that show it to be the cheapest.
fn labels(alloc: Global) -> Arg<'static> {
    Arg::new(alloc, "labels")
        .long("labels")
        .value_name("FILE")
        .action(ArgAction::Set)
        .help(
            "writes to this file all lines that were searched, and labels by which check-least sees that none of their plans costs less",
        )
}

/// Whether it is said over what a plan is the cheapest.
fn least(alloc: Global) -> Arg<'static> {
    Arg::new(alloc, "least")
        .long("least")
        .action(ArgAction::SetTrue)
        .help("says behind the plan over how many goals and lines it is the cheapest")
}

/// The place of a folder of tables.
fn folder(alloc: Global) -> Result<Arg<'static>, AllocError> {
    last(alloc, "DIR", "the folder with <table>.csv for each table")
}

fn query<'a>(alloc: Global) -> Result<Command<'a>, AllocError> {
    of_query(
        alloc,
        "query",
        "Answers a query over tables in CSV files, by a plan that was checked",
        "sqlplan query [OPTIONS] <SCHEMA> <QUERY> <DIR>",
    )?
    .arg(progress(alloc))?
    .arg(folder(alloc)?)?
    .arg(limit(alloc))?
    .arg(report(alloc))
}

fn meaning<'a>(alloc: Global) -> Result<Command<'a>, AllocError> {
    of_query(
        alloc,
        "meaning",
        "Answers a query over tables in CSV files, as its meaning says: slowly, with no plan",
        "sqlplan meaning [OPTIONS] <SCHEMA> <QUERY> <DIR>",
    )?
    .arg(progress(alloc))?
    .arg(folder(alloc)?)
}

fn plan<'a>(alloc: Global) -> Result<Command<'a>, AllocError> {
    of_query(
        alloc,
        "plan",
        "Plans a query by statistics, and writes the certificate of its plan",
        "sqlplan plan [OPTIONS] <SCHEMA> <QUERY> <STATS>",
    )?
    .arg(statistics(alloc)?)?
    .arg(limit(alloc))?
    .arg(labels(alloc))
}

fn explain<'a>(alloc: Global) -> Result<Command<'a>, AllocError> {
    of_query(
        alloc,
        "explain",
        "Plans a query by statistics, and shows its plan with rows and costs",
        "sqlplan explain [OPTIONS] <SCHEMA> <QUERY> <STATS>",
    )?
    .arg(statistics(alloc)?)?
    .arg(format(alloc))?
    .arg(limit(alloc))?
    .arg(least(alloc))
}

fn check<'a>(alloc: Global) -> Result<Command<'a>, AllocError> {
    of_query(
        alloc,
        "check",
        "Checks that a certificate's plan answers a query, and says accepted where it does",
        "sqlplan check [OPTIONS] <SCHEMA> <QUERY> <CERT>",
    )?
    .arg(last(alloc, "CERT", CERTIFICATE)?)
}

fn check_least<'a>(alloc: Global) -> Result<Command<'a>, AllocError> {
    of_query(
        alloc,
        "check-least",
        "Checks that a certificate's plan answers a query, and that no plan of its lines costs less, and says accepted where both are so",
        "sqlplan check-least [OPTIONS] <SCHEMA> <QUERY> <STATS> <LABELS>",
    )?
    .arg(place(alloc, "STATS", STATISTICS))?
    .arg(last(
        alloc,
        "LABELS",
        "a certificate with labels, a file that plan --labels wrote",
    )?)
}

fn run<'a>(alloc: Global) -> Result<Command<'a>, AllocError> {
    of_query(
        alloc,
        "run",
        "Answers a query over tables in CSV files, by the plan of a certificate that is accepted",
        "sqlplan run [OPTIONS] <SCHEMA> <QUERY> <CERT> <DIR>",
    )?
    .arg(progress(alloc))?
    .arg(place(alloc, "CERT", CERTIFICATE))?
    .arg(folder(alloc)?)
}

fn codes<'a>(alloc: Global) -> Command<'a> {
    Command::new(alloc, "codes").about(
        "Lists the codes of refusals, each with what it means and an example",
    )
}

pub fn command<'a>(alloc: Global) -> Result<Command<'a>, AllocError> {
    Command::new(alloc, "sqlplan")
        .about("Plans queries, checks the plans, and runs what was checked")
        .version(VERSION)
        .after_help(EXAMPLES)
        .subcommand_required(true)
        .subcommand(query(alloc)?)?
        .subcommand(meaning(alloc)?)?
        .subcommand(plan(alloc)?)?
        .subcommand(explain(alloc)?)?
        .subcommand(check(alloc)?)?
        .subcommand(check_least(alloc)?)?
        .subcommand(run(alloc)?)?
        .subcommand(codes(alloc))
}
