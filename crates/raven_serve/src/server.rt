//! The server.
ghost use Rattle.std.specs.Prelude.{◌≡◌, ◌≤◌, ◌+◌, [], IfOk, List, ℕ, false, map, option_map, true, vec_capacity, vec_len};
ghost use Rattle.raven_ports.specs.Faults.{Rose};
ghost use Rattle.raven_ports.specs.States.{KeeperState};
ghost use Rattle.spec_server.specs.Options.{setting_with};
ghost use Rattle.spec_desk.specs.Lived.{machine_in};
ghost use Rattle.raven_desk.specs.Openings.{Loads, Opens};
ghost use Rattle.raven_turn.specs.Passes.{IsFirst};
ghost use Rattle.raven_serve.specs.Finishing.{Came, EndsSo, IsClosing, IsOpening, Server, end_of as spec_end_of, server};

use crate::ends::{ServeEnd, Served, Serving, end_of, end_unopened};
use crate::jobsets::{Gathered, gather, handed_back, works};
use crate::work::{Outcome, Site, Work};
use http_parts::Routes;
use raven_base::NoMemory;
use raven_crew::{Crew, CrewFault};
use raven_desk::Live;
use raven_ports::{Clock, Keeper};
use raven_turn::{Pass, Turn};
use serve_ports::{Door, Gate};
use std::alloc::Global;
use std::sync::{Arc, Wait};
use std::thread::Threads;

// Runs the jobs, or gets them back as they are. Returns whether they were refused.
fn run<
    'a,
    R: Threads + Wait + Sync,
    K: Keeper + Send + Drop,
    C: Clock + Send + Sync + Drop,
    G: Gate + Send + Sync + Drop,
    D: Door + Send + Drop,
    W: Crew,
>(
    rt: &R,
    alloc: Global,
    crew: &mut W,
    jobs: Vec<Work<'a, K, C, G, D>>,
) -> Result<(Vec<Outcome<K, D>>, bool), NoMemory>
where
    D::Conn: Send,
    ensures came { IfOk result (λ r. Came r.1 jobs.entry.items r.0.items) }
    ensures same { IfOk result (λ r. r.1 ≡ false → (W.state crew.new).faults ≡ (W.state crew.old).faults) }
    ensures cause { IfOk result (λ r. r.1 ≡ true → Rose (W.state crew.old).faults (W.state crew.new).faults) }
{
    match crew.run_all(rt, alloc, jobs) {
        Ok(outs) => Ok((outs, false)),
        Err(CrewFault::Refused(jobs)) => {
            let outs = handed_back(alloc, jobs)?;
            Ok((outs, true))
        }
        Err(CrewFault::NoMemory) => Err(NoMemory),
    }
}

// Out of memory, before there were jobs.
fn unserved<K: Keeper, D: Door>(live: Live<K>, doors: Vec<D>) -> Served<K, D>
    ensures end { result.end ≡ ServeEnd.NoMemory }
    ensures ends { (s : Server) → Loads s.keeper live.keeper → map D.state doors.items ≡ s.doors
        → EndsSo result.end s (option_map K.state result.keeper) (map D.state result.doors.items) }
{
    Served {
        end: ServeEnd::NoMemory,
        keeper: Some(live.into_keeper()),
        doors,
    }
}

// Out of memory, with the jobs.
fn lost<K: Keeper, D: Door>(alloc: Global) -> Served<K, D>
    ensures end { result.end ≡ ServeEnd.NoMemory }
    ensures ends { (s : Server) → EndsSo result.end s (option_map K.state result.keeper) (map D.state result.doors.items) }
{
    Served {
        end: ServeEnd::NoMemory,
        keeper: None,
        doors: Vec::new(alloc),
    }
}

// Ends the turn, by the pass that has all its shares.
fn end<K: Keeper + Drop, D: Door>(
    turn: Turn<Live<K>>,
    all: Gathered<K, D>,
    refused: bool,
) -> Served<K, D>
    requires own { all.pass.turn ≡ turn.turn }
    requires shares { all.pass.shares ≡ turn.shares }
    ensures kept { IsClosing all.pass.seen (option_map K.state result.keeper) }
    ensures doors { result.doors.items ≡ all.doors.items }
    ensures end { result.end ≡ spec_end_of refused all.failed }
{
    let Gathered {
        pass,
        doors,
        failed,
    } = all;
    let Some(live) = turn.close(pass) else {
        unreachable!()
    };
    Served {
        end: end_of(refused, failed),
        keeper: Some(live.into_keeper()),
        doors,
    }
}

// Runs the jobs over a new turn, and then ends it.
fn serve_turn<
    R: Threads + Wait + Sync,
    K: Keeper + Send + Drop,
    C: Clock + Send + Sync + Drop,
    G: Gate + Send + Sync + Drop,
    D: Door + Send + Drop,
    W: Crew,
>(
    rt: &R,
    turn: Turn<Live<K>>,
    first: Pass<Live<K>>,
    site: Site<'_, C, G>,
    pumps: u32,
    doors: Vec<D>,
    room: Vec<D>,
    crew: &mut W,
) -> Served<K, D>
where
    D::Conn: Send,
    requires first { IsFirst turn first }
    requires shares { turn.shares ≡ vec_len doors + pumps + 1 }
    requires empty { room.items ≡ [] }
    requires room { vec_len doors + pumps ≤ vec_capacity room }
    ensures ends { (base : List ℕ) (before : KeeperState)
        → IsOpening (server base site.entry.name (C.moment site.entry.clock.value) before (map D.state doors.items)) turn.opening
        → EndsSo result.end (server base site.entry.name (C.moment site.entry.clock.value) before (map D.state doors.items))
        (option_map K.state result.keeper) (map D.state result.doors.items) }
    ensures refused { result.end ≡ ServeEnd.NoThread → Rose (W.state crew.old).faults (W.state crew.new).faults }
    ensures begun { result.end ≡ ServeEnd.Done → (W.state crew.new).faults ≡ (W.state crew.old).faults }
{
    let alloc = site.alloc;
    let mut rest = first;
    let Ok(jobs) = works(alloc, &turn, &mut rest, &site, doors, pumps) else {
        return lost(alloc);
    };
    let Ok((outs, refused)) = run(rt, alloc, crew, jobs) else {
        return lost(alloc);
    };
    let all = gather(&turn, rest, outs, room);
    end(turn, all, refused)
}

// Serves the doors over a database that was opened.
fn serve_live<
    R: Threads + Wait + Sync,
    K: Keeper + Send + Drop,
    C: Clock + Send + Sync + Drop,
    G: Gate + Send + Sync + Drop,
    D: Door + Send + Drop,
    W: Crew,
>(
    rt: &R,
    live: Live<K>,
    site: Site<'_, C, G>,
    pumps: u32,
    doors: Vec<D>,
    crew: &mut W,
) -> Served<K, D>
where
    D::Conn: Send,
    ensures ends { (base : List ℕ) (before : KeeperState) → Opens (setting_with base) before.held (machine_in live) → Loads before live.keeper
        → EndsSo result.end (server base site.entry.name (C.moment site.entry.clock.value) before (map D.state doors.items))
        (option_map K.state result.keeper) (map D.state result.doors.items) }
    ensures refused { result.end ≡ ServeEnd.NoThread → Rose (W.state crew.old).faults (W.state crew.new).faults }
    ensures begun { result.end ≡ ServeEnd.Done → (W.state crew.new).faults ≡ (W.state crew.old).faults }
{
    let count = doors.len();
    let Ok(room) = Vec::with_capacity(site.alloc, count + pumps as usize) else {
        return unserved(live, doors);
    };
    let shares = count as u64 + u64::from(pumps) + 1;
    let live = live.with_fronts(count as u64);
    match Turn::new(site.alloc, live, shares) {
        Ok((turn, first)) => serve_turn(rt, turn, first, site, pumps, doors, room, crew),
        Err(live) => unserved(live, doors),
    }
}

/// Opens the database of the rows that the keeper holds, and serves the connections that come in at the doors, which are beside one
/// another: a job for each door, and so many pumps, which make batches. It returns when each door is closed or has failed.
///
/// The keeper and the doors are returned in each case, but if memory runs out once there are jobs.
pub fn serve<
    R: Threads + Wait + Sync,
    K: Keeper + Send + Drop,
    C: Clock + Send + Sync + Drop,
    G: Gate + Send + Sync + Drop,
    D: Door + Send + Drop,
    W: Crew,
>(
    rt: &R,
    alloc: Global,
    serving: Serving,
    keeper: K,
    clock: Arc<C>,
    gate: Arc<G>,
    doors: Vec<D>,
    crew: &mut W,
) -> Served<K, D>
where
    D::Conn: Send,
    ensures ends { EndsSo result.end (server serving.base serving.name (C.moment clock.value) (K.state keeper) (map D.state doors.items))
        (option_map K.state result.keeper) (map D.state result.doors.items) }
    ensures refused { result.end ≡ ServeEnd.NoThread → Rose (W.state crew.old).faults (W.state crew.new).faults }
    ensures begun { result.end ≡ ServeEnd.Done → (W.state crew.new).faults ≡ (W.state crew.old).faults }
{
    let Serving { base, name, pumps } = serving;
    let Ok(routes) = Routes::new(alloc) else {
        return Served {
            end: ServeEnd::NoMemory,
            keeper: Some(keeper),
            doors,
        };
    };
    let live = match Live::open(alloc, keeper, base) {
        Ok(live) => live,
        Err(unopened) => {
            let end = end_unopened(unopened.fault);
            return Served {
                end,
                keeper: Some(unopened.keeper),
                doors,
            };
        }
    };
    let site = Site {
        alloc,
        clock,
        gate,
        name,
        routes: &routes,
    };
    serve_live(rt, live, site, pumps, doors, crew)
}
