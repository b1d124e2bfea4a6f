//! The world of stored rows.
ghost use Rattle.std.specs.Prelude.{◌≡◌, ◌<◌, ◌^◌, ℕ, List, [], ◌++◌, ◌∷◌, IfErr, IfOk, IsTrue, None, Some, drop, if◌then◌else◌, length, option_map};
ghost use Rattle.doc_txn.specs.SettingView.{setting_of};
ghost use Rattle.spec_store.specs.Commit.{is_index_id as spec_is_index_id};
ghost use Rattle.spec_server.specs.Opening.{is_beside as spec_is_beside, is_defining as spec_is_defining, is_filed as spec_is_filed, is_live, is_too_many as spec_is_too_many, with_slot};
ghost use Rattle.index_definition.specs.DefinitionView.{definition_view};
ghost use Rattle.index_lang.specs.Openings.{IsReadRow, OpensAs};
ghost use Rattle.raven_world.specs.Opened.{TakesRow, TellsBadRow, read_as};
ghost use Rattle.spec_data.specs.Folding.{folded};
ghost use Rattle.spec_store.specs.Store.{row_at, store_of};
ghost use Rattle.spec_index.specs.World.{index_id as spec_index_id, new_version};
ghost use Rattle.raven_world.specs.Kinds.{HasOwnName};
ghost use Rattle.spec_server.specs.Machine.{machine_of};

use crate::naming::{IndexName, read_name};
use crate::world::World;
use doc_store::{OpenFault, Store};
use doc_txn::{BaseId, Limits, is_index_id};
use index_definition::{DefBody, Definition};
use index_lang::of_row_body;
use index_version::is_document;
use raven_base::NoMemory;
use raven_json::value_of;
use raven_value::{Body, Id, Name, Row, Rows, starts_folded};
use side_by_side::{Slot, Slots, index_id};
use std::alloc::Global;
use std::sync::Arc;

/// How many bytes are before the name in the id of the row of a definition.
const FRONT: usize = 7;

fn is_defining(row: &Row) -> bool
    ensures { result ≡ spec_is_defining row.now }
{
    is_document(row) && row.collection.as_str() == "@indexes"
}

fn is_filed(row: &Row) -> bool
    ensures { result ≡ spec_is_filed row.now }
{
    if row.collection.as_str() == "@indexes" {
        is_index_id(&row.id)
    } else {
        !is_index_id(&row.id)
    }
}

fn is_too_many(limits: &Limits, count: usize, slots: &[Slot], row: &Row) -> bool
    ensures { (base : List ℕ) → result ≡ spec_is_too_many (setting_of base limits.now) count slots.now row.now }
{
    limits.rows as usize <= count || (is_defining(row) && limits.slots as usize <= slots.len())
}

// The definition that is read of a row, if it is the live row of one.
fn definition_in(alloc: Global, row: &Row) -> Result<Option<DefBody>, NoMemory>
    ensures { IfOk result (λ body. IsReadRow (read_as row.now (option_map definition_view body))) }
{
    if !is_defining(row) {
        return Ok(None);
    }
    match &row.body {
        Body::Doc(document) => of_row_body(alloc, &value_of(alloc, document)?),
        Body::Gone => Ok(None),
    }
}

// The name in the id of the row of a definition.
fn name_in(id: &Id) -> &str
    requires { IsTrue (spec_is_index_id id.now) }
    ensures { result.now ≡ drop 7 id.now }
{
    &id.as_str()[FRONT..]
}

// The index of the row of a definition of this name.
fn named_slot(alloc: Global, row: &Row, name: IndexName, body: DefBody) -> Result<Slot, NoMemory>
    requires { HasOwnName name }
    ensures { IfOk result (λ slot. slot ≡ record { number = row.now.etag; name = name.name; version = new_version (definition_view body); row = row.now.etag }) }
{
    let IndexName { name, own } = name;
    let definition = Arc::new(alloc, Definition { name: own, body })?;
    Slot::fresh(alloc, row.etag, name, definition)
}

// Whether the row of the definition of this name is live.
fn is_defined(alloc: Global, store: &Store, name: &Name) -> Result<bool, NoMemory>
    ensures { IfOk result (λ flag. flag ≡ is_live (row_at (folded (spec_index_id name.now)) store.now.rows)) }
{
    let id = index_id(alloc, name)?;
    match store.get(&id) {
        Some(row) => Ok(is_document(row)),
        None => Ok(false),
    }
}

// Whether the index of this name replaces none, or one whose row is live.
fn is_beside(alloc: Global, store: &Store, name: &IndexName) -> Result<bool, NoMemory>
    requires { HasOwnName name.now }
    ensures { IfOk result (λ flag. flag ≡ spec_is_beside store.now.rows name.now.name) }
{
    if starts_folded(name.name.as_str().as_bytes(), b"replacementof/") {
        is_defined(alloc, store, &name.own)
    } else {
        Ok(true)
    }
}

// The index of the row of this definition, or nothing if it cannot have its name.
fn slot_of(alloc: Global, store: &Store, row: &Row, body: DefBody) -> Result<Option<Slot>, NoMemory>
    requires { IsTrue (spec_is_index_id row.now.id) }
    ensures { IfOk result (λ slot. (slots : List Slot) → option_map (λ s. slots ++ s ∷ []) slot ≡ with_slot store.now.rows slots row.now (Some (definition_view body))) }
{
    let Some(name) = read_name(alloc, &body, name_in(&row.id))? else {
        return Ok(None);
    };
    if is_beside(alloc, store, &name)? {
        Ok(Some(named_slot(alloc, row, name, body)?))
    } else {
        Ok(None)
    }
}

// Adds the index of a row of a definition. It returns false if there is none, and adds nothing then.
fn take_index(
    alloc: Global,
    store: &Store,
    slots: &mut Vec<Slot>,
    row: &Row,
    body: Option<DefBody>,
) -> Result<bool, NoMemory>
    requires { IsTrue (spec_is_index_id row.now.id) }
    ensures { IfOk result (λ is_good. (if is_good then Some slots.new.items else None) ≡ with_slot store.now.rows slots.old.items row.now (option_map definition_view body)) }
{
    let Some(body) = body else {
        return Ok(false);
    };
    match slot_of(alloc, store, row, body)? {
        Some(slot) => {
            slots.push(slot)?;
            Ok(true)
        }
        None => Ok(false),
    }
}

// Adds the index of a row that follows so many others, if it is the live row of a definition. It returns false if the row is
// bad, and adds nothing then.
fn take_row(
    alloc: Global,
    limits: &Limits,
    store: &Store,
    count: usize,
    slots: &mut Vec<Slot>,
    row: &Row,
) -> Result<bool, NoMemory>
    ensures { IfOk result (λ is_good. TakesRow limits.now store.now.rows count slots.old.items slots.new.items row.now is_good) }
{
    let body = definition_in(alloc, row)?;
    if is_too_many(limits, count, slots, row) || !is_filed(row) {
        return Ok(false);
    }
    if !is_defining(row) {
        return Ok(true);
    }
    take_index(alloc, store, slots, row, body)
}

impl World {
    /// The database of these rows, in order of etag, of which this is the store: each live row of the collection `@indexes` is an
    /// index that has recorded nothing yet, and there are no others.
    ///
    /// The first of these rows is reported as bad:
    /// - a row with as many rows before it as the limit allows;
    /// - the live row of a definition with as many indexes before it as the limit allows;
    /// - a row whose id begins with `@index/`, without regard to case, and whose collection is not `@indexes`, or the other way
    ///   round;
    /// - the live row of a definition whose body is neither that of an automatic index nor that of a map by a text of the language,
    ///   or the rest of whose id cannot be the name of such an index;
    /// - the live row of a definition that is to replace one that has no live row.
    #[tactic(auto, using(crate::proofs::Openings::opening))]
    pub fn open(
        alloc: Global,
        rows: &Rows,
        store: Store,
        base: BaseId,
        limits: Limits,
    ) -> Result<World, OpenFault>
        requires few { length rows.now < 2 ^ 32 }
        requires stored { store ≡ store_of rows.now }
        ensures opened { IfOk result (λ world. OpensAs (setting_of base limits) rows.now (machine_of world)) }
        ensures fault { IfErr result (TellsBadRow (setting_of base limits) rows.now) }
    {
        let mut slots = Vec::new(alloc);
        for (count, shared) in rows.as_slice().iter().enumerate() {
            let row = shared.get();
            if !take_row(alloc, &limits, &store, count, &mut slots, row)? {
                return Err(OpenFault::KeptBad { etag: row.etag });
            }
        }
        // A store tells with its last etag that its etags rise, and so the numbers of the indexes do.
        let _last = store.last();
        let live = Slots::of(alloc, slots)?;
        Ok(World::of_parts(store, live, base, limits))
    }
}
