//! How often a batch calls the map: over documents that load others, with a mapper that counts its calls.
ghost use Rattle.std.specs.Prelude.{◌≡◌, ◌≤◌};
ghost use Rattle.index_definition.specs.DefinitionView.{definition_view};
ghost use Rattle.index_version.specs.Meaning.{found_local, found_meaning};

use crate::stores::opened;
use doc_store::Store;
use index_batch::next;
use index_definition::Definition;
use index_lang::parse;
use index_version::{DefinitionMapper, IndexVersion};
use map_stage::{Lookup, Mapped, Mapper, Ticket};
use raven_base::{NoMemory, Steps};
use raven_value::{Name, Row};
use std::alloc::Global;
use std::marker::Brand;
use std::sync::Arc;
use std::sync::atomic::{AtomicU64, Ordering};
use std::sync::ledger::{Blank, Ledger};
use std::test::Fail;
use std::thread::Threads;

const ROWS: &[(u64, &str, &str, &str)] = &[
    (1, "orders/1", "Orders", "{\"Company\":\"companies/1\"}"),
    (2, "orders/2", "Orders", "{\"Company\":\"COMPANIES/1\"}"),
    (3, "orders/3", "Orders", "{\"Company\":\"companies/2\"}"),
    (4, "users/1", "Users", "{\"Company\":\"companies/1\"}"),
    (5, "companies/1", "Companies", "{\"Name\":\"Ada\"}"),
    (6, "companies/2", "Companies", ""),
    (7, "companies/3", "Companies", "{\"Name\":\"Bob\"}"),
    (8, "orders/4", "Orders", ""),
];

const MAP: &str =
    "from o in docs.Orders let c = LoadDocument(o.Company, \"Companies\") select new { c.Name }";

#[derive(Clone, Copy)]
struct CountingMapper<'d> {
    definition: &'d Definition,
    calls: &'d AtomicU64,
}

impl<'d> Mapper for CountingMapper<'d> {
    ghost meaning = { λ m d find. found_meaning (definition_view m.definition.now.body) d find };

    fn map<T: Lookup>(
        &self,
        alloc: Global,
        doc: &Row,
        rows: &T,
        ticket: Ticket,
    ) -> Result<Mapped, NoMemory> {
        self.calls.fetch_add(1, Ordering::SeqCst);
        let mapper = DefinitionMapper {
            definition: self.definition,
        };
        mapper.map(alloc, doc, rows, ticket)
    }

    ghost local = { λ m d find other alike. found_local (definition_view m.definition.now.body) d find other alike };
}

fn definition(alloc: Global) -> Result<Definition, Fail> {
    Ok(parse(alloc, Name::new(alloc, "N")?, MAP, None)?)
}

fn fresh(alloc: Global) -> Result<IndexVersion, Fail> {
    let definition = Arc::new(alloc, definition(alloc)?)?;
    Ok(IndexVersion::fresh(alloc, definition)?)
}

fn brought<R: Threads + Sync, L: Ledger>(
    rt: &R,
    alloc: Global,
    version: &IndexVersion,
    store: &Store,
    max: u32,
    calls: &AtomicU64,
    blank: Blank,
) -> Result<Option<IndexVersion>, NoMemory>
    requires name { blank.name ≡ L.name }
    requires parts { blank.parts ≡ L.parts }
    requires enough { 3 ≤ blank.parts }
{
    let mapper = CountingMapper {
        definition: version.definition(),
        calls,
    };
    let mut steps = Steps::<L>::new(blank);
    next(rt, alloc, version, store, &mapper, max, &mut steps)
}

// The version after a batch, if there is something to take. How often the map was called is added to `told`.
fn told_batch<R: Threads + Sync>(
    rt: &R,
    alloc: Global,
    version: &IndexVersion,
    store: &Store,
    max: u32,
    told: &mut Vec<u64>,
) -> Result<Option<IndexVersion>, NoMemory> {
    let calls = AtomicU64::new(0);
    let new = brought::<R, Brand>(rt, alloc, version, store, max, &calls, Blank::new(3))?;
    if new.is_some() {
        told.push(calls.load(Ordering::SeqCst))?;
    }
    Ok(new)
}

// How often each batch calls the map, until there is nothing to take.
fn calls_of<R: Threads + Sync>(
    rt: &R,
    alloc: Global,
    store: &Store,
    max: u32,
) -> Result<Vec<u64>, Fail> {
    let mut told = Vec::new(alloc);
    let mut version = fresh(alloc)?;
    for _batch in 0..9 {
        let Some(new) = told_batch(rt, alloc, &version, store, max, &mut told)? else {
            break;
        };
        version = new;
    }
    Ok(told)
}

#[test]
fn a_batch_asks_the_map_for_what_it_touches(rt: HostRuntime) -> Result<(), Fail> {
    let alloc = rt.alloc();
    let store = opened(alloc, ROWS)?;
    let one_by_one = calls_of(&rt, alloc, &store, 1)?;
    let five_by_five = calls_of(&rt, alloc, &store, 5)?;
    let at_once = calls_of(&rt, alloc, &store, 64)?;
    assert_eq!(rt; one_by_one.as_slice(), [1u64, 1, 1, 2, 1, 0, 0].as_slice());
    assert_eq!(rt; five_by_five.as_slice(), [3u64, 0].as_slice());
    assert_eq!(rt; at_once.as_slice(), [3u64].as_slice());
    Ok(())
}
