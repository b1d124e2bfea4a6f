//! What the jobs do.
ghost use Rattle.std.specs.Prelude.{◌≡◌, Some};
ghost use Rattle.raven_serve.specs.Fronts.{SamePass};
ghost use Rattle.raven_serve.specs.Works.{IsDoorDone};

use crate::calls::calls;
use crate::pump::pump;
use crate::work::{Outcome, Site, Work};
use http_desk::DeskAnswers;
use raven_crew::Job;
use raven_desk::Live;
use raven_ports::{Clock, Keeper};
use raven_turn::{Act, Pass, Turn};
use serve_ports::{Door, Gate};
use std::sync::Wait;
use std::thread::Threads;
use turn_desk::TurnDesk;

impl<'a, K: Keeper + Drop, C: Clock + Drop, G: Gate + Drop, D: Door + Drop> Job
    for Work<'a, K, C, G, D> {
    type Out = Outcome<K, D>;

    ghost use Rattle.raven_serve.specs.Works.{Does};

    ghost done = { Does };

    fn run<R: Threads + Wait + Sync>(self, rt: &R) -> Outcome<K, D> {
        let Work {
            turn,
            pass,
            site,
            door,
            begin,
        } = self;
        match door {
            Some(door) => front(rt, turn, pass, site, door),
            None => {
                let pass = pump(rt, site.alloc, turn, pass, begin, &*site.clock, &*site.gate);
                Outcome {
                    pass,
                    door: None,
                    failed: false,
                }
            }
        }
    }
}

// One front less is not at its end.
#[derive(Drop)]
struct EndFront;

impl<K: Keeper> Act<Live<K>> for EndFront {
    type Out = ();

    ghost use Rattle.raven_serve.specs.Fronts.{EndsFront};

    ghost needs = { λ act x. Unit {0} };

    ghost does = { λ act x out y. EndsFront x y };

    fn act<R: Wait>(self, _rt: &R, value: &mut Live<K>) {
        value.end_front();
    }

    ghost stable = { λ act x y a b. tt };
}

// Serves the connections of a door until it is closed or fails, and then ends the front.
fn front<R: Threads + Wait + Sync, K: Keeper + Drop, C: Clock + Drop, G: Gate + Drop, D: Door>(
    rt: &R,
    turn: &Turn<Live<K>>,
    pass: Pass<Live<K>>,
    site: Site<'_, C, G>,
    door: D,
) -> Outcome<K, D>
    requires own { pass.turn ≡ turn.now.turn }
    ensures pass { SamePass pass result.pass }
    ensures front { IsDoorDone (record { pass = pass; clock = C.moment site.entry.clock.value; name = site.entry.name; door = Some (D.state door) })
        (Some (D.state door)) result.pass result.failed result.door }
{
    let Site {
        alloc,
        clock,
        gate,
        name,
        routes,
    } = site;
    let mut door = door;
    let desk = TurnDesk::new(turn, pass, clock, gate);
    let mut answers = DeskAnswers::new(rt, routes, desk, name);
    let failed = calls(rt, alloc, &mut answers, &mut door);
    let desk = answers.finish();
    let mut pass = desk.finish();
    turn.with(rt, &mut pass, EndFront);
    Outcome {
        pass,
        door: Some(door),
        failed,
    }
}
