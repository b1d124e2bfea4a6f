//! Transactions: commands that are all taken, or none of them.
ghost use Rattle.std.specs.Prelude.{◌≡◌, ◌∷◌, ◌++◌, [], IfOk, IfErr, None, Some, Ok, length, map, option_map};
ghost use Rattle.std.specs.Option.{ForSome};
ghost use Rattle.spec_store.specs.Store.{IsStore, with_row};
ghost use Rattle.spec_store.specs.Later.{MayFollow};
ghost use Rattle.spec_store.specs.Commit.{Commits, etags_taken, refusal_of as spec_refusal_of, row_of as spec_row_of, with_option, with_written};
ghost use Rattle.doc_store.specs.Bounds.{IsWithin};
ghost use Rattle.doc_txn.specs.CommandView.{command_view, writer_view};
ghost use Rattle.doc_txn.specs.FaultView.{Refuses, RefusesAt, kind_view};
ghost use Rattle.doc_txn.specs.TermsView.{setting_in};
ghost use Rattle.doc_txn.specs.TransactionView.{outcome, written_of};

use crate::base_id::BaseId;
use crate::command::{Command, Commands, Writer};
use crate::fault::{TxnFault, TxnKind};
use crate::limits::Limits;
use crate::refusal::{Terms, refusal_of};
use crate::row::draft_of;
use doc_store::Store;
use raven_base::{NoMemory, Sequence, Shared};
use raven_value::{Row, Rows};
use std::alloc::Global;

/// The etags that commands took, if any, in order.
pub type Etags = Sequence<Option<u64>>;

/// What a transaction leaves.
#[derive(Drop)]
pub struct Transaction {
    /// The store after it.
    pub store: Store,

    /// The rows that it wrote, in order.
    pub rows: Rows,

    /// For each command the etag that it took, if any.
    pub etags: Etags,
}

impl Transaction {
    fn start(alloc: Global, store: &Store) -> Result<Transaction, NoMemory>
        ensures written { IfOk result (λ done. written_of done ≡ record { store = store.now; rows = [] }) }
        ensures etags { IfOk result (λ done. done.etags ≡ []) }
    {
        Ok(Transaction {
            store: store.clone()?,
            rows: Rows::new(alloc),
            etags: Etags::new(alloc),
        })
    }

    fn write(self, alloc: Global, row: Row) -> Result<Transaction, NoMemory>
        requires follows { MayFollow self.store row }
        requires within { IsWithin (with_row self.store row) }
        ensures written { IfOk result (λ done. written_of done ≡ with_written (Some row) (written_of self)) }
        ensures etags { IfOk result (λ done. done.etags ≡ self.etags ++ Some row.etag ∷ []) }
    {
        let Transaction {
            store,
            mut rows,
            mut etags,
        } = self;
        etags.push(Some(row.etag))?;
        let shared = Shared::of(alloc, row)?;
        rows.push(shared.clone()?)?;
        Ok(Transaction {
            store: store.put_row(alloc, shared)?,
            rows,
            etags,
        })
    }

    fn write_if(self, alloc: Global, row: Option<Row>) -> Result<Transaction, NoMemory>
        requires follows { ForSome row (λ r. MayFollow self.store r) }
        requires within { IsWithin (with_option self.store row) }
        ensures written { IfOk result (λ done. written_of done ≡ with_written row (written_of self)) }
        ensures etags { IfOk result (λ done. done.etags ≡ self.etags ++ option_map (λ r. r.etag) row ∷ []) }
    {
        match row {
            Some(row) => self.write(alloc, row),
            None => {
                let mut done = self;
                done.etags.push(None)?;
                Ok(done)
            }
        }
    }

    /// The transaction with a further command, or why it is not taken. Its place is the number of those before it.
    fn take(self, alloc: Global, command: Command, terms: &Terms) -> Result<Transaction, TxnFault>
        ensures allowed { IfOk result (λ _. spec_refusal_of (setting_in terms.entry.now) (writer_view terms.entry.now.writer) self.store (command_view command) ≡ None) }
        ensures written { IfOk result (λ done. written_of done ≡ with_written (spec_row_of terms.entry.now.moment self.store (command_view command)) (written_of self)) }
        ensures etags { IfOk result (λ done. done.etags ≡ self.etags ++ option_map (λ r. r.etag) (spec_row_of terms.entry.now.moment self.store (command_view command)) ∷ []) }
        ensures refused { IfErr result (λ fault. RefusesAt (length self.etags) fault (spec_refusal_of (setting_in terms.entry.now) (writer_view terms.entry.now.writer) self.store (command_view command))) }
    {
        let (row, refusal) = judged(alloc, &self.store, command, terms)?;
        if let Some(kind) = refusal {
            let at = self.etags.len() as u64;
            return Err(TxnFault::Refused { at, kind });
        }
        Ok(self.write_if(alloc, row)?)
    }
}

// The row that a command would write, and why it is refused, if it is.
fn judged(
    alloc: Global,
    store: &Store,
    command: Command,
    terms: &Terms,
) -> Result<(Option<Row>, Option<TxnKind>), NoMemory>
    ensures row { IfOk result (λ told. told.0 ≡ spec_row_of terms.entry.now.moment store.now (command_view command)) }
    ensures refused { IfOk result (λ told. option_map kind_view told.1 ≡ spec_refusal_of (setting_in terms.entry.now) (writer_view terms.entry.now.writer) store.now (command_view command)) }
    ensures fits { IfOk result (λ told. told.1 ≡ None → IsWithin (with_option store.now told.0)) }
{
    let old = store.get(command.id());
    let draft = draft_of(alloc, store, old, command, terms.moment)?;
    let row = draft.row.as_ref();
    let refusal = refusal_of(alloc, store, old, &draft.id, &draft.expected, row, terms)?;
    Ok((draft.row, refusal))
}

/// Takes the commands in order, each on the store that those before it leave. The first that is refused refuses all of them.
/// The documents are moved into the rows.
///
/// Pages of the store are copied once at most: what the first commands copied is changed in place by the later ones.
pub fn transact(
    alloc: Global,
    store: &Store,
    commands: Commands,
    writer: Writer,
    base: &BaseId,
    limits: &Limits,
    now: u64,
) -> Result<Transaction, TxnFault>
    ensures ok { IfOk result (λ done. outcome base.now limits.now writer now commands store.now ≡ Ok (written_of done)) }
    ensures refused { IfErr result (λ fault. Refuses fault (outcome base.now limits.now writer now commands store.now)) }
    ensures etags { IfOk result (λ done. done.etags ≡ etags_taken now (map command_view commands) store.now) }
    ensures grows { IfOk result (λ done. IsStore store.now → Commits store.now (written_of done)) }
{
    let terms = Terms {
        writer,
        base,
        limits,
        moment: now,
    };
    let mut done = Transaction::start(alloc, store)?;
    for command in commands.into_vec() {
        done = match done.take(alloc, command, &terms) {
            Ok(more) => more,
            Err(fault) => return Err(fault),
        };
    }
    Ok(done)
}

/// As `transact` of this command alone, without a list of it.
pub fn transact_one(
    alloc: Global,
    store: &Store,
    command: Command,
    writer: Writer,
    base: &BaseId,
    limits: &Limits,
    now: u64,
) -> Result<Transaction, TxnFault>
    ensures ok { IfOk result (λ done. outcome base.now limits.now writer now (command ∷ []) store.now ≡ Ok (written_of done)) }
    ensures refused { IfErr result (λ fault. Refuses fault (outcome base.now limits.now writer now (command ∷ []) store.now)) }
    ensures etags { IfOk result (λ done. done.etags ≡ etags_taken now (command_view command ∷ []) store.now) }
    ensures grows { IfOk result (λ done. IsStore store.now → Commits store.now (written_of done)) }
{
    let terms = Terms {
        writer,
        base,
        limits,
        moment: now,
    };
    let start = Transaction::start(alloc, store)?;
    start.take(alloc, command, &terms)
}

/// As `transact`, without the etags.
pub fn commit(
    alloc: Global,
    store: &Store,
    commands: Commands,
    writer: Writer,
    base: &BaseId,
    limits: &Limits,
    now: u64,
) -> Result<(Store, Rows), TxnFault>
    ensures ok { IfOk result (λ done. outcome base.now limits.now writer now commands store.now ≡ Ok (record { store = done.0; rows = done.1 })) }
    ensures refused { IfErr result (λ fault. Refuses fault (outcome base.now limits.now writer now commands store.now)) }
    ensures grows { IfOk result (λ done. IsStore store.now → Commits store.now (record { store = done.0; rows = done.1 })) }
{
    let done = transact(alloc, store, commands, writer, base, limits, now)?;
    Ok((done.store, done.rows))
}
