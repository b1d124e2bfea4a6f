//! Replies.
use index_definition::{LangKind, Part};
use raven_base::Sequence;
use raven_json::{ShownList, ShownMembers};
use raven_value::{Document, Id, Ids, Name, Text, Value};
use rql_grammar::RqlKind;
use std::marker::Model;

/// How far a batch brought an index. The two etags are equal exactly if there was nothing to do.
#[derive(Drop)]
pub struct Pumping {
    pub from: u64,
    pub index: Name,
    pub to: u64,
}

impl Model for Pumping {
    ghost use Rattle.spec_server.specs.Replies as replies;
    ghost use Rattle.spec_server.specs.Codes.{pumping_code};

    ghost Value = { replies.Pumping };

    ghost coded = { pumping_code };

    ghost view = { λ a. record { from = a.from; index = a.index; to = a.to } };
}

/// Batches in the order of the numbers of their indexes.
pub type Pumpings = Sequence<Pumping>;

/// What is reported of an index.
#[derive(Drop)]
pub struct Listing {
    /// The body of the row of its definition, without the metadata.
    pub definition: Value,

    /// How many entries it has.
    pub entries: u64,

    /// How many of the documents that it has recorded its map fails at.
    pub errors: u64,

    /// How far it has come.
    pub etag: u64,

    /// Whether it lags.
    pub is_stale: bool,

    /// The name that it serves.
    pub name: Name,
}

impl Model for Listing {
    ghost use Rattle.spec_server.specs.Replies as replies;
    ghost use Rattle.spec_server.specs.Codes.{listing_code};
    ghost use Rattle.raven_value.specs.View.{data_of};

    ghost Value = { replies.Listing };

    ghost coded = { listing_code };

    ghost view = { λ a. record { definition = data_of a.definition; entries = a.entries; errors = a.errors; etag = a.etag; is_stale = a.is_stale; name = a.name } };
}

/// Indexes in the order of their numbers.
pub type Listings = Sequence<Listing>;

/// Names of indexes, in order.
pub type IndexNames = Sequence<Name>;

/// What one command of a transaction did.
#[derive(Drop)]
pub enum BulkResult {
    /// The document was put.
    Put { change_vector: Text, id: Id },

    /// The document was deleted, or there was none.
    Deleted { deleted: bool, id: Id },
}

/// What the commands of a transaction did, in order.
pub type BulkResults = Sequence<BulkResult>;

/// The answer to one request. Its fields are the members that are printed. Ids are in the spelling of their rows.
pub enum Reply {
    /// The document was put.
    Put {
        change_vector: Text,
        id: Id,
    },

    /// The document was deleted, or there was none.
    Deleted {
        deleted: bool,
        id: Id,
    },

    /// All commands of the transaction were taken.
    Bulk {
        results: BulkResults,
    },

    /// The document, and what is shown as its `@metadata`.
    Document {
        document: Document,
        metadata: Value,
    },

    /// The index that serves, or that was made.
    Index {
        name: Name,
    },

    /// The indexes that serve, or that were made, one for each part of an index of several maps.
    Defined {
        names: IndexNames,
    },

    /// The index of this name is removed.
    Removed {
        name: Name,
    },

    /// One batch for each index, or for the one that was named.
    Pumped {
        pumped: Pumpings,
    },

    /// The ids of the entries that were found, how far the index is, and whether it lags.
    Found {
        ids: Ids,
        index_etag: u64,
        is_stale: bool,
    },

    /// What was found by a query.
    Answer {
        /// The included documents under their ids.
        includes: ShownMembers,

        /// How far the index is that was asked.
        index_etag: u64,

        /// The name that it serves, or that of a whole collection.
        index_name: Text,

        /// Whether it lags.
        is_stale: bool,

        /// What is shown of the rows of the page, in order.
        results: ShownList,

        /// How many rows meet the condition, on the page or not.
        total_results: u64,
    },

    /// The replacement has the name, by the row of this etag.
    Switched {
        etag: u64,
        name: Name,
    },

    /// The automatic indexes that went, and the names that their replacements took.
    Tidied {
        retired: IndexNames,
        switched: IndexNames,
    },

    /// A worker holds the batch between these etags, or none if they are equal.
    Held {
        from: u64,
        to: u64,
    },

    /// How far the batch that a worker held brought this index.
    Published {
        from: u64,
        index: Name,
        to: u64,
    },

    /// How far an index is, whether it lags, and the newest etag that it reads.
    Stale {
        index_etag: u64,
        is_stale: bool,
        newest: u64,
    },

    /// Each live index, by number.
    Indexes {
        results: Listings,
    },

    /// How much the database has. The definitions of indexes are neither documents nor tombstones here.
    Stats {
        count_of_documents: u64,
        count_of_indexes: u64,
        count_of_tombstones: u64,
        last_doc_etag: u64,
    },

    /// The line has no form that is known, or asks for what is not built yet.
    UnknownLine,

    /// The text is no JSON.
    NotJson,

    /// A number of the JSON is not a whole number of 64 bits.
    NumberNotWhole,

    /// The JSON is more than 100 deep.
    TooDeep,

    /// The id or the name has no bytes.
    Empty,

    /// The id or the name has so many bytes.
    TooLong {
        len: u64,
    },

    /// The id or the name has a control character at this byte.
    Control {
        at: u64,
    },

    /// This member is missing or of another kind.
    BadMember {
        name: Text,
    },

    /// The id has no document.
    NoDocument {
        id: Id,
    },

    /// No index of this name is live.
    NoIndex {
        name: Text,
    },

    /// The index of this number, a part of an index of several maps, has another reduce than the first part.
    NotOneReduce {
        number: u64,
    },

    /// The text of the query is refused for the byte at this place, and why.
    Rql {
        at: u64,
        kind: RqlKind,
    },

    /// The parameter of this name has no value that fits. It is `startsWith` if its value is no text.
    NoParameter {
        name: Text,
    },

    /// The field, as it is printed, is none of the groups, or needs groups and there are none.
    NotGrouped {
        name: Text,
    },

    /// The start or the size of the page is outside its limits.
    BadPage,

    /// The index has no such field, as it is printed.
    NoField {
        name: Text,
    },

    /// A text of the definition is refused: which, for the byte at this place, and why.
    Lang {
        part: Part,
        at: u64,
        kind: LangKind,
    },

    /// The name is one of those that the server gives.
    ReservedName,

    /// The name of the definition has so many bytes.
    NameTooLong {
        len: u64,
    },

    /// There are as many indexes as may be.
    TooManyIndexes,

    /// The index has no replacement.
    NoReplacement,

    /// As many switches are noted as may be.
    NotesFull,

    /// The replacement lags: how far it is, and the newest etag that it reads.
    NotFresh {
        index_etag: u64,
        newest: u64,
    },

    /// The worker holds no batch.
    NothingHeld,

    /// The index of this number is no longer there.
    Gone {
        number: u64,
    },

    /// The index is already as far as the batch, or further.
    Passed {
        now: u64,
    },

    /// Tombstones past the batch were cleaned since it was read.
    Cleaned {
        /// The etag up to which they were.
        upto: u64,
    },

    /// Tombstones were cleaned.
    CleanDone {
        /// How many went.
        cleaned: u32,
        /// The etag up to which they may go.
        upto: u64,
    },

    /// The id or the collection is the server's.
    ReservedId {
        at: u64,
    },

    /// The body has so many bytes.
    TooLarge {
        at: u64,
        len: u64,
    },

    /// The id is in this other collection, in which it stays.
    CollectionChanged {
        at: u64,
        from: Text,
    },

    /// Another vector was expected than that of the document.
    Conflict {
        at: u64,
        expected: Text,
        found: Text,
    },

    /// There are as many rows as may be.
    StoreFull {
        at: u64,
        rows: u32,
    },

    /// There is no further etag.
    EtagsSpent {
        at: u64,
        last: u64,
    },

    /// The keeper failed: its counts of faults before and after, which are not printed.
    KeeperFault {
        before: u64,
        after: u64,
    },
}

// By hand, so that a proof about what drops a reply need not tell its kinds apart.
impl Drop for Reply {
    fn drop(self) {
        match self {
            Reply::Put {
                change_vector: _vector,
                id: _id,
            } => {}
            Reply::Deleted {
                deleted: _,
                id: _id,
            } => {}
            Reply::Bulk { results: _results } => {}
            Reply::Document {
                document: _document,
                metadata: _metadata,
            } => {}
            Reply::Index { name: _name } | Reply::Removed { name: _name } => {}
            Reply::Defined { names: _names } => {}
            Reply::Pumped { pumped: _pumped } => {}
            Reply::Found {
                ids: _ids,
                index_etag: _,
                is_stale: _,
            } => {}
            Reply::Answer {
                includes: _includes,
                index_etag: _,
                index_name: _name,
                is_stale: _,
                results: _results,
                total_results: _,
            } => {}
            Reply::Switched {
                etag: _,
                name: _name,
            } => {}
            Reply::Tidied {
                retired: _retired,
                switched: _switched,
            } => {}
            Reply::Held { from: _, to: _ } => {}
            Reply::Published {
                from: _,
                index: _name,
                to: _,
            } => {}
            Reply::Stale {
                index_etag: _,
                is_stale: _,
                newest: _,
            } => {}
            Reply::Indexes { results: _results } => {}
            Reply::Stats {
                count_of_documents: _,
                count_of_indexes: _,
                count_of_tombstones: _,
                last_doc_etag: _,
            } => {}
            Reply::UnknownLine | Reply::NotJson | Reply::NumberNotWhole | Reply::TooDeep => {}
            Reply::Empty | Reply::BadPage | Reply::ReservedName | Reply::TooManyIndexes => {}
            Reply::NoReplacement | Reply::NotesFull | Reply::NothingHeld => {}
            Reply::NotFresh {
                index_etag: _,
                newest: _,
            } => {}
            Reply::NotOneReduce { number: _ } => {}
            Reply::Gone { number: _ } | Reply::Passed { now: _ } | Reply::Cleaned { upto: _ } => {}
            Reply::CleanDone {
                cleaned: _,
                upto: _,
            } => {}
            Reply::TooLong { len: _ } | Reply::NameTooLong { len: _ } => {}
            Reply::Control { at: _ } | Reply::ReservedId { at: _ } => {}
            Reply::BadMember { name: _name } | Reply::NoIndex { name: _name } => {}
            Reply::NoDocument { id: _id } => {}
            Reply::Rql { at: _, kind: _ } => {}
            Reply::NoParameter { name: _name } | Reply::NotGrouped { name: _name } => {}
            Reply::NoField { name: _name } => {}
            Reply::Lang {
                part: _,
                at: _,
                kind: _,
            } => {}
            Reply::TooLarge { at: _, len: _ } => {}
            Reply::CollectionChanged { at: _, from: _from } => {}
            Reply::Conflict {
                at: _,
                expected: _expected,
                found: _found,
            } => {}
            Reply::StoreFull { at: _, rows: _ } => {}
            Reply::EtagsSpent { at: _, last: _ } => {}
            Reply::KeeperFault {
                before: _,
                after: _,
            } => {}
        }
    }
}
