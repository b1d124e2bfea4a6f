//! A switch for whose note there is no room. A script cannot set how many notes may be.
use doc_store::Store;
use doc_txn::{BaseId, Limits};
use index_lang::parse_texts;
use raven_reply::Reply;
use raven_value::{Name, Rows};
use raven_world::{Made, World, WorldFault};
use std::alloc::Global;
use std::test::Fail;

// An empty database that may have so many notes.
fn empty(alloc: Global, notes: u32) -> Result<World, Fail> {
    let Some(base) = BaseId::new(alloc, "AAAAAAAAAAAAAAAAAAAAAA")? else {
        return Err(Fail::new("the base id is refused"));
    };
    let limits = Limits {
        rows: 9,
        slots: 9,
        notes,
    };
    let rows = Rows::new(alloc);
    let store = Store::open(alloc, &rows)?;
    Ok(World::open(alloc, &rows, store, base, limits)?)
}

// The database after this index is defined.
fn defined(alloc: Global, world: &World, map: &str) -> Result<World, Fail> {
    let definition = parse_texts(alloc, Name::new(alloc, "U")?, map, None)?;
    match world.define(alloc, definition, 0) {
        Ok(
            Made {
                world,
                rows: _rows,
                name: _name,
            },
        ) => Ok(world),
        Err(_) => Err(Fail::new("the definition is refused")),
    }
}

// A database with an index and its replacement, neither of which has anything to read.
fn replacing(alloc: Global, notes: u32) -> Result<World, Fail> {
    let first = defined(
        alloc,
        &empty(alloc, notes)?,
        "from u in docs.Users select new { u.Name }",
    )?;
    defined(alloc, &first, "from u in docs.Users select new { u.Age }")
}

#[test]
fn a_switch_needs_room_for_its_note(rt: HostRuntime) -> Result<(), Fail> {
    let name = Name::new(rt.alloc(), "U")?;
    let full = replacing(rt.alloc(), 0)?;
    let refused = full.switch(rt.alloc(), &name, 0);
    assert!(rt; matches!(&refused, Err(WorldFault::Refused(Reply::NotesFull))));
    let tried = full.try_switch(rt.alloc(), &name, 0);
    assert!(rt; matches!(&tried, Ok(None)));
    let roomy = replacing(rt.alloc(), 1)?;
    let switched = roomy.switch(rt.alloc(), &name, 0);
    assert!(rt; matches!(&switched, Ok(_)));
    Ok(())
}
