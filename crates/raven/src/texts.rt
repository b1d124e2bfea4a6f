//! The texts of `--help` and `--version`, and the help that malformed arguments are answered with. The arguments themselves are read elsewhere.

use crate::usage::Verb;
use clap::{Arg, Command};
use raven_base::NoMemory;
use std::alloc::Global;

/// What the arguments ask for, if it is a text about the program.
pub enum Wish {
    /// The help of all.
    Help,

    /// The help of one command.
    HelpOf(Verb),

    Version,
}

/// `--help` or `-h` alone or after a command, or `--version` or `-V` alone.
pub fn wish_in(arguments: &[String]) -> Option<Wish> {
    match arguments {
        [word] => match word.as_str() {
            "--version" | "-V" => Some(Wish::Version),
            "--help" | "-h" => Some(Wish::Help),
            _ => None,
        },
        [word, help] => match help.as_str() {
            "--help" | "-h" => Verb::of(word.as_str()).map(Wish::HelpOf),
            _ => None,
        },
        _ => None,
    }
}

fn data(alloc: Global) -> Arg<'static> {
    Arg::new(alloc, "data").long("data").value_name("FILE").help(
        "The SQLite file of the documents. Without it they are in memory alone",
    )
}

fn id(alloc: Global) -> Arg<'static> {
    Arg::new(alloc, "id")
        .long("id")
        .value_name("BASE")
        .default_value("AAAAAAAAAAAAAAAAAAAAAA")
        .help(
            "The base id of the database, which its change vectors end with: 22 letters or digits",
        )
}

fn name(alloc: Global) -> Arg<'static> {
    Arg::new(alloc, "db")
        .long("db")
        .value_name("NAME")
        .default_value("db")
        .help("The name of the database: 1 to 64 letters, digits, `_` or `-`")
}

fn number(alloc: Global, name: &'static str, default: &'static str) -> Arg<'static> {
    Arg::new(alloc, name)
        .long(name)
        .value_name("N")
        .default_value(default)
}

fn run(alloc: Global) -> Result<Command<'static>, NoMemory> {
    let run = Command::new(alloc, "run").about(
        "Reads a script from standard input to its end, and then writes a reply for each line",
    );
    Ok(run.arg(data(alloc))?.arg(id(alloc))?)
}

fn http(alloc: Global) -> Result<Command<'static>, NoMemory> {
    let pump = number(alloc, "pump", "1024").help(
        "The most rows that each index takes in after each request, up to 65536. 0: none",
    );
    let http = Command::new(alloc, "http").about(
        "Serves one HTTP connection over standard input and output",
    );
    let http = http.arg(data(alloc))?.arg(id(alloc))?;
    Ok(http.arg(name(alloc))?.arg(pump)?)
}

fn serve(alloc: Global) -> Result<Command<'static>, NoMemory> {
    let port = number(alloc, "port", "8080").help(
        "The port of 127.0.0.1 to listen at. 0: one that is free",
    );
    let workers = number(alloc, "workers", "4").help(
        "How many connections are served at once, up to 64",
    );
    let pumps = number(alloc, "pumps", "2").help(
        "How many threads let the indexes catch up, up to 16",
    );
    let connections = Arg::new(alloc, "connections")
        .long("connections")
        .value_name("N")
        .help("Stop after so many connections, up to 1000000. Without it: never");
    let serve = Command::new(alloc, "serve").about("Serves HTTP on a port of this machine");
    let serve = serve
        .arg(data(alloc))?
        .arg(id(alloc))?
        .arg(name(alloc))?
        .arg(port)?;
    Ok(serve.arg(workers)?.arg(pumps)?.arg(connections)?)
}

fn measure(alloc: Global) -> Result<Command<'static>, NoMemory> {
    let seed = number(alloc, "seed", "1").help("The seed of the orders, up to 2147483646");
    let docs = number(alloc, "docs", "2000").help("How many orders, up to 200000");
    let batch = number(alloc, "batch", "1024").help(
        "The most rows that the index takes in a batch, up to 65536",
    );
    let measure = Command::new(alloc, "measure").about(
        "Fills a database in memory with orders, and prints the totals of an index over them",
    );
    Ok(measure.arg(seed)?.arg(docs)?.arg(batch)?)
}

fn program(alloc: Global) -> Result<Command<'static>, NoMemory> {
    let program = Command::new(alloc, "raven")
        .about("A document server with the behaviour of RavenDB 4.0")
        .version(RELEASE)
        .disable_help_subcommand(true)
        .subcommand_required(true);
    let program = program.subcommand(run(alloc)?)?;
    let program = program.subcommand(serve(alloc)?)?;
    let program = program.subcommand(http(alloc)?)?;
    Ok(program.subcommand(measure(alloc)?)?)
}

const RELEASE: &str = "0.1.0";

fn command_of(alloc: Global, verb: Verb) -> Result<Command<'static>, NoMemory> {
    match verb {
        Verb::Run => run(alloc),
        Verb::Serve => serve(alloc),
        Verb::Http => http(alloc),
        Verb::Measure => measure(alloc),
    }
}

/// The help of one command.
pub fn help_of(alloc: Global, verb: Verb) -> Result<String, NoMemory> {
    let name = verb.name();
    let name = format!(in alloc; "raven {name}")?;
    let mut command = command_of(alloc, verb)?
        .bin_name(name.as_str())?
        .disable_help_flag(true);
    Ok(command.render_help()?)
}

/// The commands of the program, and what each of them does.
pub fn overview(alloc: Global) -> Result<String, NoMemory> {
    Ok(program(alloc)?.render_help()?)
}

/// The overview, and the help of each command.
pub fn help_text(alloc: Global) -> Result<String, NoMemory> {
    let mut text = overview(alloc)?;
    for verb in [Verb::Run, Verb::Serve, Verb::Http, Verb::Measure] {
        text.push_str("\n")?;
        text.push_str(help_of(alloc, verb)?.as_str())?;
    }
    Ok(text)
}

/// The name of the program and its version.
pub fn version_text(alloc: Global) -> Result<String, NoMemory> {
    Ok(program(alloc)?.render_version()?)
}
