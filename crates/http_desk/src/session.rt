//! One session over a desk.
ghost use Rattle.std.specs.Prelude.{◌≡◌, ◌≤◌};
ghost use Rattle.raven_ports.specs.Faults.{Rose};
ghost use Rattle.http_session.specs.Steps.{NamesEnd};
ghost use Rattle.http_desk.specs.Chains.{FinishesAlone, KeepsAlone};

use crate::desk_answers::DeskAnswers;
use http_parts::Routes;
use http_session::{Why, serve};
use raven_desk::OneDesk;
use raven_ports::{Clock, Keeper, Sink, Source};
use raven_value::Text;
use std::alloc::Global;
use std::thread::Threads;

/// Serves one session from the desk of one caller, which answers to requests to the database of this name, and gives the desk back.
pub fn serve_alone<R: Threads + Sync, K: Keeper, C: Clock, S: Source, O: Sink>(
    rt: &R,
    alloc: Global,
    routes: &Routes,
    desk: OneDesk<K, C>,
    database: Text,
    source: &mut S,
    sink: &mut O,
) -> (Why, OneDesk<K, C>)
    ensures served { FinishesAlone (S.state source.old) (desk, database) (O.state sink.old) result.0 (result.1, database) (O.state sink.new) }
    ensures kept { KeepsAlone (desk, database) (result.1, database) }
    ensures names { NamesEnd result.0 }
    ensures reads { (S.state source.old).faults ≤ (S.state source.new).faults }
    ensures writes { (O.state sink.old).faults ≤ (O.state sink.new).faults }
    ensures read_fault { result.0 ≡ Why.ReadFault → Rose (S.state source.old).faults (S.state source.new).faults }
    ensures write_fault { result.0 ≡ Why.WriteFault → Rose (O.state sink.old).faults (O.state sink.new).faults }
{
    let mut answers = DeskAnswers::new(rt, routes, desk, database);
    let why = serve(alloc, &mut answers, source, sink);
    (why, answers.finish())
}
