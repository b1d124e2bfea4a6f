//! What the arguments of the program ask for: a command with its options.
ghost use Rattle.std.specs.Prelude.{◌≡◌, ◌≤◌, IfOk, IfSome, Some, length, map, option_map, string_bytes};
ghost use Rattle.std.specs.List.{list_all};
ghost use Rattle.spec_http.specs.Options.{is_name as spec_is_name, is_of_name as spec_is_of_name, name_in, options_in as spec_http_options, pump_in};
ghost use Rattle.spec_measure.specs.Options.{number_in as spec_number_in, options_in as spec_measure_options};
ghost use Rattle.raven_serve.specs.Options.{Range, counts_in, limit_in, number_or as spec_number_or, number_within as spec_number_within, options_in as spec_serve_options};
ghost use Rattle.spec_server.specs.Options.{base_in, run_options as spec_run_options};
ghost use Rattle.raven_measure.specs.OptionsView.{options_view as measure_view};
ghost use Rattle.raven_console.specs.ArgumentsView.{FitsPump, counts_view, http_view, invocation_view, pair_view, run_view, serve_view, text_view};
ghost use Rattle.raven_console.specs.Invocations.{invoked_in};

use crate::pairs::{are_valid, pairs_in, value_named};
use doc_txn::BaseId;
use raven_base::NoMemory;
use raven_measure::Options;
use raven_value::{Text, number_of};
use std::alloc::Global;

/// The options of `run`.
#[derive(Drop)]
pub(crate) struct RunOptions {
    /// The file of the documents. Without one they are stored in memory alone.
    pub(crate) file: Option<Text>,

    /// The base id of the database.
    pub(crate) base: BaseId,
}

/// The options of `http`.
#[derive(Drop)]
pub(crate) struct HttpOptions {
    /// The file of the documents. Without one they are stored in memory alone.
    pub(crate) file: Option<Text>,

    /// The base id of the database.
    pub(crate) base: BaseId,

    /// The name of the database.
    pub(crate) name: Text,

    /// The most rows of the batches after each request. If it is 0, none are made.
    pub(crate) pump: u32,
}

/// The numbers among the options of `serve`.
#[derive(Drop)]
pub(crate) struct Counts {
    /// The port to listen at, or 0 for any that is free.
    pub(crate) port: u16,

    /// How many connections are served at once.
    pub(crate) workers: u8,

    /// How many pumps make batches.
    pub(crate) pumps: u32,

    /// How many connections are accepted in all. Without a number there is no limit.
    pub(crate) connections: Option<u32>,
}

/// The options of `serve`.
#[derive(Drop)]
pub(crate) struct ServeOptions {
    /// The file of the documents. Without one they are stored in memory alone.
    pub(crate) file: Option<Text>,

    /// The base id of the database.
    pub(crate) base: BaseId,

    /// The name of the database.
    pub(crate) name: Text,

    pub(crate) counts: Counts,
}

/// A command with its options.
#[derive(Drop)]
pub(crate) enum Invocation {
    Run(RunOptions),
    Measure(Options),
    Http(HttpOptions),
    Serve(ServeOptions),
}

/// What the arguments ask the caller to make before the program is called.
#[derive(Drop)]
pub struct Outside {
    /// The file of the documents. Without one they are stored in memory alone.
    pub file: Option<Text>,

    /// The port to listen at; 0 if the command does not listen.
    pub port: u16,

    /// How many connections are served at once; 0 if the command does not listen.
    pub workers: u8,

    /// How many connections are accepted in all. Without a number there is no limit.
    pub connections: Option<u32>,
}

// The most digits of a number.
const MAX_DIGITS: usize = 10;

// The most characters of the name of a database.
const MAX_NAME: usize = 64;

// The most rows of a batch.
const MAX_PUMP: u64 = 65_536;

// A number from the least to the most, which fits 32 bits.
fn number_within(text: &str, least: u32, most: u32) -> Option<u32>
    ensures number { result ≡ spec_number_within (record { least = least; most = most }) text.now }
    ensures fits { IfSome result (λ n. n ≤ most) }
{
    let number = number_of(text.as_bytes(), MAX_DIGITS)?;
    if u64::from(least) <= number && number <= u64::from(most) {
        Some(number as u32)
    } else {
        None
    }
}

fn number_in(text: Option<&str>, default: u32, most: u32) -> Option<u32>
    ensures { result ≡ spec_number_in (record { default = default; most = most }) (text_view text.entry) }
{
    match text {
        Some(text) => number_within(text, 1, most),
        None => Some(default),
    }
}

fn file_of(alloc: Global, text: Option<&str>) -> Result<Option<Text>, NoMemory>
    ensures { IfOk result (λ file. file ≡ text_view text.entry) }
{
    match text {
        Some(text) => Ok(Some(Text::of(alloc, text)?)),
        None => Ok(None),
    }
}

fn base_of(alloc: Global, text: Option<&str>) -> Result<Option<BaseId>, NoMemory>
    ensures { IfOk result (λ base. base ≡ base_in (text_view text.entry)) }
{
    match text {
        Some(text) => BaseId::new(alloc, text),
        None => Ok(Some(BaseId::program(alloc)?)),
    }
}

fn run_options(alloc: Global, pairs: &[(&str, &str)]) -> Result<Option<RunOptions>, NoMemory>
    ensures { IfOk result (λ found. option_map run_view found ≡ spec_run_options (Some (map pair_view pairs.now))) }
{
    if !are_valid(&["--data", "--id"], pairs) {
        return Ok(None);
    }
    let Some(base) = base_of(alloc, value_named(pairs, "--id"))? else {
        return Ok(None);
    };
    let file = file_of(alloc, value_named(pairs, "--data"))?;
    Ok(Some(RunOptions { file, base }))
}

fn measure_options(pairs: &[(&str, &str)]) -> Option<Options>
    ensures { option_map measure_view result ≡ spec_measure_options (Some (map pair_view pairs.now)) }
{
    if !are_valid(&["--seed", "--docs", "--batch"], pairs) {
        return None;
    }
    let seed = number_in(value_named(pairs, "--seed"), 1, 2_147_483_646)?;
    let docs = number_in(value_named(pairs, "--docs"), 2_000, 200_000)?;
    let batch = number_in(value_named(pairs, "--batch"), 1_024, 65_536)?;
    Some(Options { seed, docs, batch })
}

fn is_of_name(byte: u8) -> bool
    ensures { result ≡ spec_is_of_name byte }
{
    byte.is_ascii_alphanumeric() || byte == b'_' || byte == b'-'
}

fn are_of_name(bytes: &[u8]) -> bool
    ensures { result ≡ list_all spec_is_of_name bytes.now }
{
    bytes.iter().all(|byte| is_of_name(*byte))
}

// Whether a text may be the name of a database.
fn is_name(text: &str) -> bool
    ensures { result ≡ spec_is_name text.now }
{
    1 <= text.len() && text.len() <= MAX_NAME && are_of_name(text.as_bytes())
}

fn name_of(alloc: Global, text: Option<&str>) -> Result<Option<Text>, NoMemory>
    ensures { IfOk result (λ name. name ≡ name_in (text_view text.entry)) }
{
    let Some(text) = text else {
        return Ok(Some(Text::of(alloc, "db")?));
    };
    if !is_name(text) {
        return Ok(None);
    }
    Ok(Some(Text::of(alloc, text)?))
}

fn pump_of(text: Option<&str>) -> Option<u32>
    ensures pump { result ≡ pump_in (text_view text.entry) }
    ensures fits { IfSome result (λ pump. pump ≤ 65536) }
{
    let Some(text) = text else {
        return Some(1_024);
    };
    let number = number_of(text.as_bytes(), MAX_DIGITS)?;
    if number <= MAX_PUMP {
        Some(number as u32)
    } else {
        None
    }
}

fn http_options(alloc: Global, pairs: &[(&str, &str)]) -> Result<Option<HttpOptions>, NoMemory>
    ensures options { IfOk result (λ found. option_map http_view found ≡ spec_http_options (Some (map pair_view pairs.now))) }
    ensures fits { IfOk result (λ found. IfSome found (λ options. options.pump ≤ 65536)) }
{
    if !are_valid(&["--data", "--id", "--db", "--pump"], pairs) {
        return Ok(None);
    }
    let Some(pump) = pump_of(value_named(pairs, "--pump")) else {
        return Ok(None);
    };
    let Some(base) = base_of(alloc, value_named(pairs, "--id"))? else {
        return Ok(None);
    };
    let Some(name) = name_of(alloc, value_named(pairs, "--db"))? else {
        return Ok(None);
    };
    let file = file_of(alloc, value_named(pairs, "--data"))?;
    Ok(Some(HttpOptions {
        file,
        base,
        name,
        pump,
    }))
}

fn number_or(text: Option<&str>, default: u32, least: u32, most: u32) -> Option<u32>
    requires { default ≤ most }
    ensures number { result ≡ spec_number_or default (record { least = least; most = most }) (text_view text.entry) }
    ensures fits { IfSome result (λ n. n ≤ most) }
{
    match text {
        Some(text) => number_within(text, least, most),
        None => Some(default),
    }
}

fn limit_of(text: Option<&str>) -> Option<Option<u32>>
    ensures { result ≡ limit_in (text_view text.entry) }
{
    match text {
        Some(text) => Some(Some(number_within(text, 1, 1_000_000)?)),
        None => Some(None),
    }
}

fn counts_of(pairs: &[(&str, &str)]) -> Option<Counts>
    ensures { option_map counts_view result ≡ counts_in (map pair_view pairs.now) }
{
    let port = number_or(value_named(pairs, "--port"), 8_080, 0, 65_535)?;
    let workers = number_or(value_named(pairs, "--workers"), 4, 1, 64)?;
    let pumps = number_or(value_named(pairs, "--pumps"), 2, 1, 16)?;
    let connections = limit_of(value_named(pairs, "--connections"))?;
    Some(Counts {
        port: port as u16,
        workers: workers as u8,
        pumps,
        connections,
    })
}

fn serve_options(alloc: Global, pairs: &[(&str, &str)]) -> Result<Option<ServeOptions>, NoMemory>
    ensures { IfOk result (λ found. option_map serve_view found ≡ spec_serve_options (Some (map pair_view pairs.now))) }
{
    let names = [
        "--data",
        "--id",
        "--db",
        "--port",
        "--workers",
        "--pumps",
        "--connections",
    ];
    if !are_valid(&names, pairs) {
        return Ok(None);
    }
    let Some(counts) = counts_of(pairs) else {
        return Ok(None);
    };
    let Some(base) = base_of(alloc, value_named(pairs, "--id"))? else {
        return Ok(None);
    };
    let Some(name) = name_of(alloc, value_named(pairs, "--db"))? else {
        return Ok(None);
    };
    let file = file_of(alloc, value_named(pairs, "--data"))?;
    Ok(Some(ServeOptions {
        file,
        base,
        name,
        counts,
    }))
}

/// What the arguments ask the program to do; none exactly if they are malformed.
pub(crate) fn invoked(alloc: Global, arguments: &[String]) -> Result<Option<Invocation>, NoMemory>
    ensures asked { IfOk result (λ found. option_map invocation_view found ≡ invoked_in (map string_bytes arguments.now)) }
    ensures fits { IfOk result (λ found. IfSome found FitsPump) }
{
    let Some((command, more)) = arguments.split_first() else {
        return Ok(None);
    };
    let Some(pairs) = pairs_in(alloc, more)? else {
        return Ok(None);
    };
    match command.as_str() {
        "run" => Ok(run_options(alloc, &pairs)?.map(Invocation::Run)),
        "measure" => Ok(measure_options(&pairs).map(Invocation::Measure)),
        "http" => Ok(http_options(alloc, &pairs)?.map(Invocation::Http)),
        "serve" => Ok(serve_options(alloc, &pairs)?.map(Invocation::Serve)),
        _ => Ok(None),
    }
}
