//! The jobs of a server, and what they leave together.
ghost use Rattle.std.specs.Prelude.{◌≡◌, ◌≤◌, ◌+◌, ◌||◌, [], All, IfOk, map, option_map, vec_capacity, vec_len};
ghost use Rattle.raven_serve.specs.Works.{Belongs, any_failed, doors_in, join_all, places, post, posts, undone};

use crate::work::{Outcome, Site, Work};
use raven_base::NoMemory;
use raven_desk::Live;
use raven_ports::{Clock, Keeper};
use raven_turn::{Pass, Turn};
use serve_ports::{Door, Gate};
use std::alloc::Global;

/// The passes of all jobs joined, the doors in their order, and whether one of them failed.
pub(crate) struct Gathered<K: Keeper, D> {
    pub(crate) pass: Pass<Live<K>>,
    pub(crate) doors: Vec<D>,
    pub(crate) failed: bool,
}

// One job, with one share of the pass.
fn work<'a, K: Keeper, C: Clock + Drop, G: Gate + Drop, D: Door + Drop>(
    turn: &'a Turn<Live<K>>,
    rest: &mut Pass<Live<K>>,
    site: &Site<'a, C, G>,
    door: Option<D>,
    begin: u32,
) -> Result<Work<'a, K, C, G, D>, NoMemory>
    requires own { rest.old.turn ≡ turn.now.turn }
    requires shares { 2 ≤ rest.old.shares }
    ensures work { IfOk result (λ w. w ≡ post rest.old (C.moment site.now.clock.value) site.now.name (option_map D.state door)) }
    ensures rest { IfOk result (λ w. (rest.new.turn ≡ rest.old.turn) × (rest.new.shares + 1 ≡ rest.old.shares)
        × (rest.new.seen ≡ rest.old.seen) × (rest.new.made ≡ rest.old.made)) }
{
    let site = site.share()?;
    let pass = turn.split(rest);
    Ok(Work {
        turn,
        pass,
        site,
        door,
        begin,
    })
}

/// A job for each door, and so many pumps, each with one share of the pass.
pub(crate) fn works<'a, K: Keeper + Drop, C: Clock + Drop, G: Gate + Drop, D: Door + Drop>(
    alloc: Global,
    turn: &'a Turn<Live<K>>,
    rest: &mut Pass<Live<K>>,
    site: &Site<'a, C, G>,
    doors: Vec<D>,
    pumps: u32,
) -> Result<Vec<Work<'a, K, C, G, D>>, NoMemory>
    requires own { rest.old.turn ≡ turn.now.turn }
    requires shares { rest.old.shares ≡ vec_len doors + pumps + 1 }
    ensures works { IfOk result (λ v. v.items ≡ posts rest.old (C.moment site.now.clock.value) site.now.name (places (map D.state doors.items) pumps)) }
    ensures rest { IfOk result (λ v. (rest.new.turn ≡ rest.old.turn) × (rest.new.shares ≡ 1)
        × (rest.new.seen ≡ rest.old.seen) × (rest.new.made ≡ rest.old.made)) }
{
    let mut works = Vec::new(alloc);
    for door in doors {
        let work = work(turn, rest, site, Some(door), 0)?;
        works.push(work)?;
    }
    for begin in 0..pumps {
        let work = work(turn, rest, site, None, begin)?;
        works.push(work)?;
    }
    Ok(works)
}

// Whether one of two failed.
fn either(one: bool, other: bool) -> bool
    ensures { result ≡ (one || other) }
{
    one || other
}

/// Joins what the jobs left. The doors go into a list that has room for them, so that no memory is taken once the jobs are done.
pub(crate) fn gather<K: Keeper + Drop, D: Door + Drop>(
    turn: &Turn<Live<K>>,
    rest: Pass<Live<K>>,
    outs: Vec<Outcome<K, D>>,
    room: Vec<D>,
) -> Gathered<K, D>
    requires own { rest.turn ≡ turn.now.turn }
    requires outs { All (Belongs turn.now.turn) outs.items }
    requires empty { room.items ≡ [] }
    requires room { vec_len outs ≤ vec_capacity room }
    ensures pass { result.pass ≡ join_all rest outs.items }
    ensures doors { map D.state result.doors.items ≡ doors_in outs.items }
    ensures failed { result.failed ≡ any_failed outs.items }
{
    let mut all = rest;
    let mut doors = room;
    let mut any = false;
    for out in outs {
        let Outcome { pass, door, failed } = out;
        all = turn.join(all, pass);
        any = either(any, failed);
        if let Some(door) = door {
            doors.push_reserved(door);
        }
    }
    Gathered {
        pass: all,
        doors,
        failed: any,
    }
}

/// What jobs that were not begun have.
pub(crate) fn handed_back<'a, K: Keeper + Drop, C: Clock + Drop, G: Gate + Drop, D: Door + Drop>(
    alloc: Global,
    works: Vec<Work<'a, K, C, G, D>>,
) -> Result<Vec<Outcome<K, D>>, NoMemory>
    ensures { IfOk result (λ v. v.items ≡ map undone works.entry.items) }
{
    let mut outs = Vec::new(alloc);
    for work in works {
        let Work {
            turn: _turn,
            pass,
            site: _site,
            door,
            begin: _,
        } = work;
        outs.push(Outcome {
            pass,
            door,
            failed: false,
        })?;
    }
    Ok(outs)
}
