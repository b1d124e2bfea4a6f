//! What the caller of the program has to make.
ghost use Rattle.std.specs.Prelude.{◌≡◌, IfOk, None, map, option_map, string_bytes};
ghost use Rattle.raven_console.specs.ArgumentsView.{invocation_view, outside_of, serve_view};
ghost use Rattle.raven_console.specs.Invocations.{Serve as is_serve, invoked_in};

use crate::options::{Counts, HttpOptions, Invocation, Outside, RunOptions, ServeOptions, invoked};
use raven_base::NoMemory;
use raven_value::Text;
use std::alloc::Global;

// What a command needs that does not listen.
fn not_listening(file: Option<Text>) -> Outside
    ensures { result ≡ record { file = file; port = 0; workers = 0; connections = None } }
{
    Outside {
        file,
        port: 0,
        workers: 0,
        connections: None,
    }
}

fn needed_by_server(options: ServeOptions) -> Outside
    ensures { result ≡ outside_of (is_serve (serve_view options)) }
{
    let ServeOptions {
        file,
        base: _base,
        name: _name,
        counts,
    } = options;
    let Counts {
        port,
        workers,
        pumps: _pumps,
        connections,
    } = counts;
    Outside {
        file,
        port,
        workers,
        connections,
    }
}

// What a command needs: a run and a session their file, a measurement nothing, and a server its port too.
fn needed(invocation: Invocation) -> Outside
    ensures { result ≡ outside_of (invocation_view invocation) }
{
    match invocation {
        Invocation::Run(options) => {
            let RunOptions { file, base: _base } = options;
            not_listening(file)
        }
        Invocation::Measure(_options) => not_listening(None),
        Invocation::Http(options) => {
            let HttpOptions {
                file,
                base: _base,
                name: _name,
                pump: _pump,
            } = options;
            not_listening(file)
        }
        Invocation::Serve(options) => needed_by_server(options),
    }
}

/// What the arguments ask the caller to make; none exactly if they are malformed, so that the program would return `Usage`.
pub fn outside(alloc: Global, arguments: &[String]) -> Result<Option<Outside>, NoMemory>
    ensures { IfOk result (λ found. found ≡ option_map outside_of (invoked_in (map string_bytes arguments.now))) }
{
    match invoked(alloc, arguments)? {
        Some(invocation) => Ok(Some(needed(invocation))),
        None => Ok(None),
    }
}
