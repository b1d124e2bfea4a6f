//! Answers that change nothing.
ghost use Rattle.std.specs.Prelude.{◌≡◌, IfOk};
ghost use Rattle.spec_server.specs.Answers.{answer_get, answer_indexes, answer_stale, answer_stats, shown as spec_shown};
ghost use Rattle.spec_index.specs.World.{serving as spec_serving};
ghost use Rattle.spec_server.specs.Replies.{Document as DocumentOf};
ghost use Rattle.raven_reply.specs.ReplyView.{reply_view};

use crate::listing::listings;
use crate::snapshot::Snapshot;
use doc_txn::{BaseId, spelling};
use query_replies::{is_stale, shown_metadata};
use raven_base::NoMemory;
use raven_reply::{Listings, Reply, no_index};
use raven_value::{Body, Document, Id, Name, Row};
use std::alloc::Global;

// The reply that shows a document. It shares the document that is stored.
fn shown(alloc: Global, base: &BaseId, row: &Row, document: &Document) -> Result<Reply, NoMemory>
    ensures { IfOk result (λ reply. reply_view reply ≡ DocumentOf (spec_shown base.now row.now document.now)) }
{
    let metadata = shown_metadata(alloc, base, row, document)?;
    Ok(Reply::Document {
        document: document.clone()?,
        metadata,
    })
}

impl<'w> Snapshot<'w> {
    /// The document of an id.
    pub fn get(&self, alloc: Global, id: &Id) -> Result<Reply, NoMemory>
        ensures { IfOk result (λ reply. reply_view reply ≡ answer_get self.now id.now) }
    {
        let row = self.store.get(id);
        if let Some(row) = row {
            if let Body::Doc(document) = &row.body {
                let reply = shown(alloc, self.base, row, document)?;
                return Ok(reply);
            }
        }
        let id = spelling(id, row)?;
        Ok(Reply::NoDocument { id })
    }

    /// How far an index is, whether it lags, and the newest etag that it reads, up to a cutoff if one is given.
    pub fn stale(&self, alloc: Global, name: &Name, cutoff: Option<u64>) -> Result<Reply, NoMemory>
        ensures { IfOk result (λ reply. reply_view reply ≡ answer_stale self.now name.now cutoff (spec_serving self.now.slots name.now)) }
    {
        let Some(slot) = self.slots.serving(name) else {
            return no_index(alloc, name);
        };
        let version = &slot.version;
        Ok(Reply::Stale {
            index_etag: version.etag(),
            is_stale: is_stale(self.store, version, cutoff),
            newest: self.store.newest(version.scope(), cutoff),
        })
    }

    /// What each index is and how far it has come, by number.
    pub fn indexes(&self, alloc: Global) -> Result<Reply, NoMemory>
        ensures { IfOk result (λ reply. reply_view reply ≡ answer_indexes self.now) }
    {
        let results = Listings::of(listings(alloc, self.store, self.slots.list())?);
        Ok(Reply::Indexes { results })
    }

    /// How much the database has. It looks at no row, and takes time that grows with the number of collections.
    pub fn stats(&self) -> Reply
        ensures { reply_view result ≡ answer_stats self.now }
    {
        let counts = self.store.counts_beside("@indexes");
        Reply::Stats {
            count_of_documents: u64::from(counts.documents),
            count_of_indexes: self.slots.list().len() as u64,
            count_of_tombstones: u64::from(counts.tombstones),
            last_doc_etag: self.store.last(),
        }
    }
}
