//! Many threads at one turn.
ghost use Rattle.std.specs.Prelude.{◌≡◌, ◌+◌, ◌*◌, All, IfOk, IfSome, sum_by};
ghost use Rattle.raven_turn.specs.Passes.{Grew};

use crate::job::run_all;
use crate::rising::Rising;
use crate::shift::{Report, Shift, Work};
use raven_base::NoMemory;
use raven_turn::{Pass, Turn};
use std::alloc::Global;
use std::sync::Wait;
use std::thread::Threads;

/// Works in as many threads as `crew` over one turn, and closes it. If it returns a value, that is later than the one
/// given, and its number has grown by the sum of what the threads report.
pub fn together<V: Rising + Send + Drop, R: Threads + Wait + Sync>(
    rt: &R,
    alloc: Global,
    value: V,
    crew: u32,
    rounds: u32,
) -> Option<(V, Vec<Work>)>
    ensures later { IfSome result (λ r. V.later value r.0) }
    ensures made { IfSome result (λ r. V.made r.0 ≡ V.made value + sum_by (λ w. w.raised) r.1.items) }
{
    let Ok((turn, mut rest)) = Turn::new(alloc, value, u64::from(crew) * 2 + 1) else {
        return None;
    };
    let Ok(shifts) = shifts(alloc, &turn, &mut rest, crew, rounds) else {
        return None;
    };
    let Ok(reports) = run_all(rt, shifts) else {
        return None;
    };
    let Ok((all, works)) = gather(alloc, &turn, rest, reports) else {
        return None;
    };
    Some((turn.close(all)?, works))
}

// One shift for each thread, whose pass has two shares.
fn shifts<'a, V: Rising>(
    alloc: Global,
    turn: &'a Turn<V>,
    rest: &mut Pass<V>,
    crew: u32,
    rounds: u32,
) -> Result<Vec<Shift<'a, V>>, NoMemory>
    requires own { rest.old.turn ≡ turn.now.turn }
    requires shares { rest.old.shares ≡ crew * 2 + 1 }
    ensures same { (rest.new.turn ≡ rest.old.turn) × (rest.new.made ≡ rest.old.made) × (rest.new.seen ≡ rest.old.seen) }
    ensures shifts { IfOk result (λ v. All (λ s. (s.pass.turn ≡ turn.now.turn) × (s.pass.made ≡ 0)) v.items) }
{
    let mut shifts = Vec::with_capacity(alloc, crew as usize)?;
    for tag in 0..crew {
        let one = turn.split(rest);
        let other = turn.split(rest);
        let pass = turn.join(one, other);
        shifts.push(Shift {
            turn,
            pass,
            alloc,
            tag: u64::from(tag),
            rounds,
        })?;
    }
    Ok(shifts)
}

// Joins the passes that came back.
fn gather<V: Rising>(
    alloc: Global,
    turn: &Turn<V>,
    rest: Pass<V>,
    reports: Vec<Report<V>>,
) -> Result<(Pass<V>, Vec<Work>), NoMemory>
    requires own { rest.turn ≡ turn.now.turn }
    requires reports { All (λ r. (r.pass.turn ≡ turn.now.turn) × (r.pass.made ≡ r.work.raised)) reports.items }
    ensures made { IfOk result (λ r. r.0.made ≡ rest.made + sum_by (λ w. w.raised) r.1.items) }
    ensures seen { IfOk result (λ r. Grew V.later rest r.0) }
{
    let mut all = rest;
    let mut works = Vec::new(alloc);
    for Report { pass, work } in reports {
        all = turn.join(all, pass);
        works.push(work)?;
    }
    Ok((all, works))
}
