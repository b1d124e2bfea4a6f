//! A counter and a list under one turn, with 8 and with 64 threads.
use crate::crew::together;
use crate::list::Entries;
use crate::shift::Work;
use crate::tally::Tally;
use std::test::Fail;

// The threads of a run, and the rounds of each pass.
const RUNS: [(u32, u32); 2] = [(8, 500), (64, 50)];

fn all_worked(works: &Vec<Work>, each: u64) -> bool {
    works.iter().all(|work| work.raised == each && work.looked == each && work.rose)
}

#[test]
fn counts_what_all_threads_raise(rt: HostRuntime) -> Result<(), Fail> {
    for (crew, rounds) in RUNS {
        let start = Tally { count: 5 };
        let Some((tally, works)) = together(&rt, rt.alloc(), start, crew, rounds) else {
            panic!(rt; "no answer from {crew} threads")
        };
        let each = u64::from(rounds) * 2;
        assert_eq!(rt; tally.count, 5 + u64::from(crew) * each, "{crew} threads");
        assert!(rt; all_worked(&works, each), "{crew} threads");
    }
    Ok(())
}

#[test]
fn lists_what_all_threads_add(rt: HostRuntime) -> Result<(), Fail> {
    for (crew, rounds) in RUNS {
        let start = Entries::new(rt.alloc());
        let Some((entries, works)) = together(&rt, rt.alloc(), start, crew, rounds) else {
            panic!(rt; "no answer from {crew} threads")
        };
        let each = rounds as usize * 2;
        for tag in 0..u64::from(crew) {
            let found = entries
                .as_slice()
                .iter()
                .filter(|entry| **entry == tag)
                .count();
            assert_eq!(rt; found, each, "of thread {tag} of {crew}");
        }
        assert_eq!(rt;
            entries.as_slice().len(),
            crew as usize * each,
            "{crew} threads"
        );
        assert!(rt; all_worked(&works, each as u64), "{crew} threads");
    }
    Ok(())
}
