//! Writes of clients.
ghost use Rattle.std.specs.Prelude.{◌≡◌, ◌≤◌, ◌∷◌, [], IfOk, IfSome, map, true};
ghost use Rattle.spec_store.specs.Store.{last};
ghost use Rattle.spec_server.specs.Courses.{in_world, one_change};
ghost use Rattle.spec_server.specs.Writes.{refused_at as spec_refused_at, result_of as spec_result_of, results_of as spec_results_of, single_reply, write};
ghost use Rattle.spec_server.specs.Replies.{Bulk};
ghost use Rattle.spec_server.specs.WellFormed.{put_bodies, puts_body};
ghost use Rattle.doc_txn.specs.CommandView.{command_view};
ghost use Rattle.doc_txn.specs.FaultView.{kind_view};
ghost use Rattle.raven_reply.specs.ReplyView.{reply_view, result_view};
ghost use Rattle.raven_world.specs.WorldView.{change_view, answer_view};
ghost use Rattle.raven_world.specs.Transacts.{Transacts, bare};

use crate::world::{Change, World, WorldFault};
use doc_store::Store;
use doc_txn::{
    BaseId, Command, Commands, Expect, Transaction, TxnFault, TxnKind, Writer, spelling, transact,
    transact_one, vector,
};
use raven_base::NoMemory;
use raven_reply::{BulkResult, BulkResults, Reply};
use raven_value::{Shallow, Text, Value};
use std::alloc::Global;

/// The reply to a transaction whose command at this place is refused.
pub(crate) fn refused_at(at: u64, kind: TxnKind) -> Reply
    ensures { reply_view result ≡ spec_refused_at at (kind_view kind) }
{
    match kind {
        TxnKind::ReservedId => Reply::ReservedId { at },
        TxnKind::TooLarge { len } => Reply::TooLarge { at, len },
        TxnKind::CollectionChanged { from } => Reply::CollectionChanged { at, from },
        TxnKind::Conflict { expected, found } => Reply::Conflict {
            at,
            expected,
            found,
        },
        TxnKind::StoreFull { rows } => Reply::StoreFull { at, rows },
        TxnKind::EtagsSpent { last } => Reply::EtagsSpent { at, last },
    }
}

// What a command did that took this etag, in a transaction that left this store.
fn result_of(
    alloc: Global,
    base: &BaseId,
    store: &Store,
    command: &Command,
    etag: Option<u64>,
) -> Result<BulkResult, NoMemory>
    ensures { IfOk result (λ done. result_view done ≡ spec_result_of base.now store.now (command_view command.now) etag) }
{
    let id = command.id();
    let id = spelling(id, store.get(id))?;
    match command {
        Command::Put { .. } => {
            let change_vector = match etag {
                Some(etag) => vector(alloc, etag, base)?,
                None => Text::of(alloc, "")?,
            };
            Ok(BulkResult::Put { change_vector, id })
        }
        Command::Delete { .. } => Ok(BulkResult::Deleted {
            deleted: etag.is_some(),
            id,
        }),
    }
}

fn results_of(
    alloc: Global,
    base: &BaseId,
    store: &Store,
    commands: &[Command],
    etags: &[Option<u64>],
) -> Result<Vec<BulkResult>, NoMemory>
    ensures { IfOk result (λ done. map result_view done.items ≡ spec_results_of base.now store.now (map command_view commands.now) etags.now) }
{
    let mut results = Vec::new(alloc);
    let mut left = commands;
    let mut taken = etags;
    while let [command, more @ ..] = left {
        let [etag, later @ ..] = taken else {
            return Ok(results);
        };
        results.push(result_of(alloc, base, store, command, *etag)?)?;
        left = more;
        taken = later;
    }
    Ok(results)
}

// The reply to one command, from its result.
fn reply_of(done: BulkResult) -> Reply
    ensures { reply_view result ≡ single_reply (result_view done ∷ []) }
{
    match done {
        BulkResult::Put { change_vector, id } => Reply::Put { change_vector, id },
        BulkResult::Deleted { deleted, id } => Reply::Deleted { deleted, id },
    }
}

// The reply to one command, in a transaction that left this store and took these etags.
fn single(
    alloc: Global,
    base: &BaseId,
    store: &Store,
    command: &Command,
    etags: &[Option<u64>],
) -> Result<Reply, NoMemory>
    ensures { IfOk result (λ reply. reply_view reply ≡ single_reply (spec_results_of base.now store.now (command_view command.now ∷ []) etags.now)) }
{
    match etags {
        [] => Ok(Reply::UnknownLine),
        [etag, ..] => Ok(reply_of(result_of(alloc, base, store, command, *etag)?)),
    }
}

// The command without its document, for a reply after the document was moved away.
fn without_document(command: &Command) -> Result<Command, NoMemory>
    ensures { IfOk result (λ head. command_view head ≡ bare (command_view command.now)) }
{
    match command {
        Command::Put { id, .. } => Ok(Command::Put {
            id: id.clone()?,
            expected: Expect::Any,
            body: Shallow::of(Value::Null),
        }),
        Command::Delete { id, .. } => Ok(Command::Delete {
            id: id.clone()?,
            expected: Expect::Any,
        }),
    }
}

// The commands without their documents, for replies after these were moved away.
fn without_documents(alloc: Global, commands: &Commands) -> Result<Commands, NoMemory>
    ensures { IfOk result (λ heads. map command_view heads ≡ map bare (map command_view commands.now)) }
{
    let mut heads = Vec::with_capacity(alloc, commands.len())?;
    for command in commands.as_slice() {
        heads.push(without_document(command)?)?;
    }
    Ok(Commands::of(heads))
}

impl World {
    fn transact(
        &self,
        alloc: Global,
        commands: Commands,
        now: u64,
    ) -> Result<Transaction, WorldFault>
        ensures done { Transacts self.now now (map command_view commands) result }
        ensures later { IfOk result (λ done. last self.now.store ≤ last done.store) }
    {
        match transact(
            alloc,
            &self.store,
            commands,
            Writer::Client,
            &self.base,
            &self.limits,
            now,
        ) {
            Ok(done) => Ok(done),
            Err(TxnFault::Refused { at, kind }) => Err(WorldFault::Refused(refused_at(at, kind))),
            Err(TxnFault::NoMemory) => Err(WorldFault::NoMemory),
        }
    }

    fn transact_one(
        &self,
        alloc: Global,
        command: Command,
        now: u64,
    ) -> Result<Transaction, WorldFault>
        ensures done { Transacts self.now now (command_view command ∷ []) result }
        ensures later { IfOk result (λ done. last self.now.store ≤ last done.store) }
    {
        match transact_one(
            alloc,
            &self.store,
            command,
            Writer::Client,
            &self.base,
            &self.limits,
            now,
        ) {
            Ok(done) => Ok(done),
            Err(TxnFault::Refused { at, kind }) => Err(WorldFault::Refused(refused_at(at, kind))),
            Err(TxnFault::NoMemory) => Err(WorldFault::NoMemory),
        }
    }

    fn reply_to(
        &self,
        alloc: Global,
        command: &Command,
        done: &Transaction,
    ) -> Result<Reply, NoMemory>
        ensures { IfOk result (λ reply. reply_view reply ≡ single_reply (spec_results_of self.now.setting.base done.now.store (command_view command.now ∷ []) done.now.etags)) }
    {
        let etags = done.etags.as_slice();
        single(alloc, &self.base, &done.store, command, etags)
    }

    fn results(
        &self,
        alloc: Global,
        commands: &Commands,
        done: &Transaction,
    ) -> Result<Vec<BulkResult>, NoMemory>
        ensures { IfOk result (λ results. map result_view results.items ≡ spec_results_of self.now.setting.base done.now.store (map command_view commands.now) done.now.etags) }
    {
        results_of(
            alloc,
            &self.base,
            &done.store,
            commands.as_slice(),
            done.etags.as_slice(),
        )
    }

    fn changed(&self, done: Transaction, reply: Reply) -> Result<Change, NoMemory>
        requires { last self.now.store ≤ last done.store }
        ensures { IfOk result (λ change. change_view change ≡ one_change (reply_view reply) done.rows (in_world self.now done.store self.now.slots)) }
    {
        let world = self.with(done.store, self.slots.clone()?)?;
        Ok(Change {
            world,
            rows: done.rows,
            reply,
        })
    }

    // What commands changed, with the reply to each.
    fn replied(
        &self,
        alloc: Global,
        commands: &Commands,
        done: Transaction,
    ) -> Result<Change, NoMemory>
        requires { last self.now.store ≤ last done.store }
        ensures { IfOk result (λ change. change_view change ≡ one_change (Bulk (spec_results_of self.now.setting.base done.store (map command_view commands.now) done.etags)) done.rows (in_world self.now done.store self.now.slots)) }
    {
        let results = BulkResults::of(self.results(alloc, commands, &done)?);
        self.changed(done, Reply::Bulk { results })
    }

    /// Takes one command, and replies to it. A document that it puts is an object at most 100 deep; another would not open again.
    #[tactic(auto, using(crate::proofs::Steps::writes_one))]
    pub fn commit_one(
        &self,
        alloc: Global,
        command: Command,
        now: u64,
    ) -> Result<Change, WorldFault>
        requires { puts_body (command_view command) ≡ true }
        ensures { IfSome (answer_view result) (λ course. course ≡ write self.now single_reply now (command_view command ∷ [])) }
    {
        let head = without_document(&command)?;
        let done = self.transact_one(alloc, command, now)?;
        let reply = self.reply_to(alloc, &head, &done)?;
        Ok(self.changed(done, reply)?)
    }

    /// Takes commands in order, all of them or none, and replies to each. The documents are as for `commit_one`, and are moved into the store.
    #[tactic(auto, using(crate::proofs::Steps::writes_all))]
    pub fn commit(&self, alloc: Global, commands: Commands, now: u64) -> Result<Change, WorldFault>
        requires { put_bodies (map command_view commands) ≡ true }
        ensures { IfSome (answer_view result) (λ course. course ≡ write self.now Bulk now (map command_view commands)) }
    {
        let heads = without_documents(alloc, &commands)?;
        let done = self.transact(alloc, commands, now)?;
        Ok(self.replied(alloc, &heads, done)?)
    }
}
