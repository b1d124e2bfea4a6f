//! What is printed of replies.
ghost use Rattle.std.specs.Prelude.{◌≡◌, ◌++◌, IfOk, OnOk, false, map};
ghost use Rattle.spec_data.specs.Data.{items_of, text as spec_text};
ghost use Rattle.spec_data.specs.Written.{items_text, text_of};
ghost use Rattle.spec_server.specs.Replies.{Bulk, CleanDone, Defined, Deleted, Found as FoundIds, Held, Index, Indexes as IndexesAll, Published, Pumped as PumpedAll, Put as PutOne, Removed, Stale, Stats, Switched, Tidied, listing_data, pumping_data, reply_data, result_data};
ghost use Rattle.raven_reply.specs.ReplyView.{reply_view, result_view};

use crate::error::{
    write_conflict, write_error, write_error_at, write_error_at_with, write_error_with, write_lang,
    write_not_fresh, write_rql,
};
use crate::piece::{Piece, write_bytes, write_object, write_piece};
use crate::reply::{BulkResult, Listing, Pumping, Reply};
use raven_base::NoMemory;
use raven_json::{write_shown, write_text};
use raven_value::{Id, Name};
use std::alloc::Global;

fn write_published(
    alloc: Global,
    out: &mut Vec<u8>,
    from: u64,
    index: &str,
    to: u64,
) -> Result<(), NoMemory>
    ensures { OnOk result (out.new.items ≡ out.old.items ++ text_of (reply_data (Published from index.now to))) }
{
    write_object(
        alloc,
        out,
        &[
            ("From", Piece::Number(from)),
            ("Index", Piece::Text(index)),
            ("To", Piece::Number(to)),
        ],
    )
}

fn write_pumping(alloc: Global, out: &mut Vec<u8>, pumping: &Pumping) -> Result<(), NoMemory>
    ensures { OnOk result (out.new.items ≡ out.old.items ++ text_of (pumping_data pumping.now)) }
{
    write_published(alloc, out, pumping.from, pumping.index.as_str(), pumping.to)
}

fn write_listing(alloc: Global, out: &mut Vec<u8>, listing: &Listing) -> Result<(), NoMemory>
    ensures { OnOk result (out.new.items ≡ out.old.items ++ text_of (listing_data listing.now)) }
{
    write_object(
        alloc,
        out,
        &[
            ("Definition", Piece::Json(&listing.definition)),
            ("Entries", Piece::Number(listing.entries)),
            ("Errors", Piece::Number(listing.errors)),
            ("Etag", Piece::Number(listing.etag)),
            ("IsStale", Piece::Flag(listing.is_stale)),
            ("Name", Piece::Text(listing.name.as_str())),
        ],
    )
}

fn write_result(alloc: Global, out: &mut Vec<u8>, done: &BulkResult) -> Result<(), NoMemory>
    ensures { OnOk result (out.new.items ≡ out.old.items ++ text_of (result_data (result_view done.now))) }
{
    match done {
        BulkResult::Put { change_vector, id } => {
            let members = [
                ("ChangeVector", Piece::Text(change_vector.as_str())),
                ("Id", Piece::Text(id.as_str())),
                ("Type", Piece::Text("PUT")),
            ];
            write_object(alloc, out, &members)?;
            Ok(())
        }
        BulkResult::Deleted { deleted, id } => write_object(
            alloc,
            out,
            &[
                ("Deleted", Piece::Flag(*deleted)),
                ("Id", Piece::Text(id.as_str())),
                ("Type", Piece::Text("DELETE")),
            ],
        ),
    }
}

fn write_ids(out: &mut Vec<u8>, ids: &[Id]) -> Result<(), NoMemory>
    ensures { OnOk result (out.new.items ≡ out.old.items ++ items_text false (items_of (map spec_text ids.now))) }
{
    let mut later = false;
    for id in ids {
        if later {
            write_bytes(out, b",")?;
        }
        write_text(out, id.as_str())?;
        later = true;
    }
    Ok(())
}

fn write_names(out: &mut Vec<u8>, names: &[Name]) -> Result<(), NoMemory>
    ensures { OnOk result (out.new.items ≡ out.old.items ++ items_text false (items_of (map spec_text names.now))) }
{
    let mut later = false;
    for name in names {
        if later {
            write_bytes(out, b",")?;
        }
        write_text(out, name.as_str())?;
        later = true;
    }
    Ok(())
}

fn write_pumpings(alloc: Global, out: &mut Vec<u8>, pumpings: &[Pumping]) -> Result<(), NoMemory>
    ensures { OnOk result (out.new.items ≡ out.old.items ++ items_text false (items_of (map pumping_data pumpings.now))) }
{
    let mut later = false;
    for pumping in pumpings {
        if later {
            write_bytes(out, b",")?;
        }
        write_pumping(alloc, out, pumping)?;
        later = true;
    }
    Ok(())
}

fn write_listings(alloc: Global, out: &mut Vec<u8>, listings: &[Listing]) -> Result<(), NoMemory>
    ensures { OnOk result (out.new.items ≡ out.old.items ++ items_text false (items_of (map listing_data listings.now))) }
{
    let mut later = false;
    for listing in listings {
        if later {
            write_bytes(out, b",")?;
        }
        write_listing(alloc, out, listing)?;
        later = true;
    }
    Ok(())
}

fn write_results(alloc: Global, out: &mut Vec<u8>, results: &[BulkResult]) -> Result<(), NoMemory>
    ensures { OnOk result (out.new.items ≡ out.old.items ++ items_text false (items_of (map result_data (map result_view results.now)))) }
{
    let mut later = false;
    for done in results {
        if later {
            write_bytes(out, b",")?;
        }
        write_result(alloc, out, done)?;
        later = true;
    }
    Ok(())
}

#[tactic(auto, using(crate::proofs::Printed::printed))]
fn write_found(
    alloc: Global,
    out: &mut Vec<u8>,
    ids: &[Id],
    index_etag: u64,
    is_stale: bool,
) -> Result<(), NoMemory>
    ensures { OnOk result (out.new.items ≡ out.old.items ++ text_of (reply_data (FoundIds ids.now index_etag is_stale))) }
{
    write_bytes(out, b"{\"Ids\":[")?;
    write_ids(out, ids)?;
    write_bytes(out, b"],\"IndexEtag\":")?;
    write_piece(alloc, out, &Piece::Number(index_etag))?;
    write_bytes(out, b",\"IsStale\":")?;
    write_piece(alloc, out, &Piece::Flag(is_stale))?;
    write_bytes(out, b"}")?;
    Ok(())
}

#[tactic(auto, using(crate::proofs::Printed::printed))]
fn write_pumped(alloc: Global, out: &mut Vec<u8>, pumped: &[Pumping]) -> Result<(), NoMemory>
    ensures { OnOk result (out.new.items ≡ out.old.items ++ text_of (reply_data (PumpedAll pumped.now))) }
{
    write_bytes(out, b"{\"Pumped\":[")?;
    write_pumpings(alloc, out, pumped)?;
    write_bytes(out, b"]}")
}

#[tactic(auto, using(crate::proofs::Printed::printed))]
fn write_defined(out: &mut Vec<u8>, names: &[Name]) -> Result<(), NoMemory>
    ensures { OnOk result (out.new.items ≡ out.old.items ++ text_of (reply_data (Defined names.now))) }
{
    write_bytes(out, b"{\"Indexes\":[")?;
    write_names(out, names)?;
    write_bytes(out, b"]}")
}

fn write_tidied(out: &mut Vec<u8>, retired: &[Name], switched: &[Name]) -> Result<(), NoMemory>
    ensures { OnOk result (out.new.items ≡ out.old.items ++ text_of (reply_data (Tidied retired.now switched.now))) }
{
    write_bytes(out, b"{\"Retired\":[")?;
    write_names(out, retired)?;
    write_bytes(out, b"],\"Switched\":[")?;
    write_names(out, switched)?;
    write_bytes(out, b"]}")?;
    Ok(())
}

#[tactic(auto, using(crate::proofs::Printed::printed))]
fn write_indexes(alloc: Global, out: &mut Vec<u8>, results: &[Listing]) -> Result<(), NoMemory>
    ensures { OnOk result (out.new.items ≡ out.old.items ++ text_of (reply_data (IndexesAll results.now))) }
{
    write_bytes(out, b"{\"Results\":[")?;
    write_listings(alloc, out, results)?;
    write_bytes(out, b"]}")
}

#[tactic(auto, using(crate::proofs::Printed::printed))]
fn write_bulk(alloc: Global, out: &mut Vec<u8>, results: &[BulkResult]) -> Result<(), NoMemory>
    ensures { OnOk result (out.new.items ≡ out.old.items ++ text_of (reply_data (Bulk (map result_view results.now)))) }
{
    write_bytes(out, b"{\"Results\":[")?;
    write_results(alloc, out, results)?;
    write_bytes(out, b"]}")
}

fn write_stats(
    alloc: Global,
    out: &mut Vec<u8>,
    documents: u64,
    indexes: u64,
    tombstones: u64,
    last: u64,
) -> Result<(), NoMemory>
    ensures { OnOk result (out.new.items ≡ out.old.items ++ text_of (reply_data (Stats documents indexes tombstones last))) }
{
    write_object(
        alloc,
        out,
        &[
            ("CountOfDocuments", Piece::Number(documents)),
            ("CountOfIndexes", Piece::Number(indexes)),
            ("CountOfTombstones", Piece::Number(tombstones)),
            ("LastDocEtag", Piece::Number(last)),
        ],
    )
}

fn write_stale(
    alloc: Global,
    out: &mut Vec<u8>,
    index_etag: u64,
    is_stale: bool,
    newest: u64,
) -> Result<(), NoMemory>
    ensures { OnOk result (out.new.items ≡ out.old.items ++ text_of (reply_data (Stale index_etag is_stale newest))) }
{
    write_object(
        alloc,
        out,
        &[
            ("IndexEtag", Piece::Number(index_etag)),
            ("IsStale", Piece::Flag(is_stale)),
            ("Newest", Piece::Number(newest)),
        ],
    )
}

fn write_put(
    alloc: Global,
    out: &mut Vec<u8>,
    change_vector: &str,
    id: &str,
) -> Result<(), NoMemory>
    ensures { OnOk result (out.new.items ≡ out.old.items ++ text_of (reply_data (PutOne change_vector.now id.now))) }
{
    write_object(
        alloc,
        out,
        &[
            ("ChangeVector", Piece::Text(change_vector)),
            ("Id", Piece::Text(id)),
        ],
    )
}

fn write_deleted(alloc: Global, out: &mut Vec<u8>, deleted: bool, id: &str) -> Result<(), NoMemory>
    ensures { OnOk result (out.new.items ≡ out.old.items ++ text_of (reply_data (Deleted deleted id.now))) }
{
    write_object(
        alloc,
        out,
        &[("Deleted", Piece::Flag(deleted)), ("Id", Piece::Text(id))],
    )
}

fn write_index(alloc: Global, out: &mut Vec<u8>, name: &str) -> Result<(), NoMemory>
    ensures { OnOk result (out.new.items ≡ out.old.items ++ text_of (reply_data (Index name.now))) }
{
    write_object(alloc, out, &[("Index", Piece::Text(name))])
}

fn write_removed(alloc: Global, out: &mut Vec<u8>, name: &str) -> Result<(), NoMemory>
    ensures { OnOk result (out.new.items ≡ out.old.items ++ text_of (reply_data (Removed name.now))) }
{
    write_object(alloc, out, &[("Removed", Piece::Text(name))])
}

fn write_switched(alloc: Global, out: &mut Vec<u8>, etag: u64, name: &str) -> Result<(), NoMemory>
    ensures { OnOk result (out.new.items ≡ out.old.items ++ text_of (reply_data (Switched etag name.now))) }
{
    write_object(
        alloc,
        out,
        &[
            ("Etag", Piece::Number(etag)),
            ("Switched", Piece::Text(name)),
        ],
    )
}

fn write_clean_done(
    alloc: Global,
    out: &mut Vec<u8>,
    cleaned: u32,
    upto: u64,
) -> Result<(), NoMemory>
    ensures { OnOk result (out.new.items ≡ out.old.items ++ text_of (reply_data (CleanDone cleaned upto))) }
{
    write_object(
        alloc,
        out,
        &[
            ("Cleaned", Piece::Number(u64::from(cleaned))),
            ("Upto", Piece::Number(upto)),
        ],
    )
}

fn write_held(alloc: Global, out: &mut Vec<u8>, from: u64, to: u64) -> Result<(), NoMemory>
    ensures { OnOk result (out.new.items ≡ out.old.items ++ text_of (reply_data (Held from to))) }
{
    write_object(
        alloc,
        out,
        &[("From", Piece::Number(from)), ("To", Piece::Number(to))],
    )
}

/// Adds the reply as JSON to `out`, without a line end.
fn write_reply(alloc: Global, out: &mut Vec<u8>, reply: &Reply) -> Result<(), NoMemory>
    ensures { OnOk result (out.new.items ≡ out.old.items ++ text_of (reply_data (reply_view reply.now))) }
{
    match reply {
        Reply::Put { change_vector, id } => {
            write_put(alloc, out, change_vector.as_str(), id.as_str())
        }
        Reply::Deleted { deleted, id } => write_deleted(alloc, out, *deleted, id.as_str()),
        Reply::Bulk { results } => write_bulk(alloc, out, results.as_slice()),
        Reply::Document { document, metadata } => write_shown(alloc, out, document, metadata),
        Reply::Index { name } => write_index(alloc, out, name.as_str()),
        Reply::Defined { names } => write_defined(out, names.as_slice()),
        Reply::Removed { name } => write_removed(alloc, out, name.as_str()),
        Reply::Pumped { pumped } => write_pumped(alloc, out, pumped.as_slice()),
        Reply::Found {
            ids,
            index_etag,
            is_stale,
        } => write_found(alloc, out, ids.as_slice(), *index_etag, *is_stale),
        Reply::Answer {
            includes,
            index_etag,
            index_name,
            is_stale,
            results,
            total_results,
        } => {
            let members = [
                ("Includes", Piece::Map(includes)),
                ("IndexEtag", Piece::Number(*index_etag)),
                ("IndexName", Piece::Text(index_name.as_str())),
                ("IsStale", Piece::Flag(*is_stale)),
                ("Results", Piece::List(results)),
                ("TotalResults", Piece::Number(*total_results)),
            ];
            write_object(alloc, out, &members)
        }
        Reply::Switched { etag, name } => write_switched(alloc, out, *etag, name.as_str()),
        Reply::Tidied { retired, switched } => {
            write_tidied(out, retired.as_slice(), switched.as_slice())
        }
        Reply::Held { from, to } => write_held(alloc, out, *from, *to),
        Reply::Published { from, index, to } => {
            write_published(alloc, out, *from, index.as_str(), *to)
        }
        Reply::Stale {
            index_etag,
            is_stale,
            newest,
        } => write_stale(alloc, out, *index_etag, *is_stale, *newest),
        Reply::Indexes { results } => write_indexes(alloc, out, results.as_slice()),
        Reply::Stats {
            count_of_documents,
            count_of_indexes,
            count_of_tombstones,
            last_doc_etag,
        } => {
            write_stats(
                alloc,
                out,
                *count_of_documents,
                *count_of_indexes,
                *count_of_tombstones,
                *last_doc_etag,
            )
        }
        Reply::UnknownLine => write_error(alloc, out, "UnknownLine"),
        Reply::NotJson => write_error(alloc, out, "NotJson"),
        Reply::NumberNotWhole => write_error(alloc, out, "NumberNotWhole"),
        Reply::TooDeep => write_error(alloc, out, "TooDeep"),
        Reply::Empty => write_error(alloc, out, "Empty"),
        Reply::TooLong { len } => {
            write_error_with(alloc, out, "TooLong", "Len", Piece::Number(*len))
        }
        Reply::Control { at } => write_error_at(alloc, out, *at, "Control"),
        Reply::BadMember { name } => {
            write_error_with(alloc, out, "BadMember", "Name", Piece::Text(name.as_str()))
        }
        Reply::NoDocument { id } => {
            write_error_with(alloc, out, "NoDocument", "Id", Piece::Text(id.as_str()))
        }
        Reply::NoIndex { name } => {
            write_error_with(alloc, out, "NoIndex", "Name", Piece::Text(name.as_str()))
        }
        Reply::NotOneReduce { number } => {
            write_error_with(alloc, out, "NotOneReduce", "Number", Piece::Number(*number))
        }
        Reply::Rql { at, kind } => write_rql(alloc, out, *at, *kind),
        Reply::NoParameter { name } => {
            write_error_with(
                alloc,
                out,
                "NoParameter",
                "Name",
                Piece::Text(name.as_str()),
            )
        }
        Reply::NotGrouped { name } => {
            write_error_with(alloc, out, "NotGrouped", "Name", Piece::Text(name.as_str()))
        }
        Reply::BadPage => write_error(alloc, out, "BadPage"),
        Reply::NoField { name } => {
            write_error_with(alloc, out, "NoField", "Name", Piece::Text(name.as_str()))
        }
        Reply::Lang { part, at, kind } => write_lang(alloc, out, *part, *at, *kind),
        Reply::ReservedName => write_error(alloc, out, "ReservedName"),
        Reply::NameTooLong { len } => {
            write_error_with(alloc, out, "NameTooLong", "Len", Piece::Number(*len))
        }
        Reply::TooManyIndexes => write_error(alloc, out, "TooManyIndexes"),
        Reply::NoReplacement => write_error(alloc, out, "NoReplacement"),
        Reply::NotesFull => write_error(alloc, out, "NotesFull"),
        Reply::NotFresh { index_etag, newest } => write_not_fresh(alloc, out, *index_etag, *newest),
        Reply::NothingHeld => write_error(alloc, out, "NothingHeld"),
        Reply::Gone { number } => {
            write_error_with(alloc, out, "Gone", "Number", Piece::Number(*number))
        }
        Reply::Passed { now } => write_error_with(alloc, out, "Passed", "Now", Piece::Number(*now)),
        Reply::Cleaned { upto } => {
            write_error_with(alloc, out, "Cleaned", "Upto", Piece::Number(*upto))
        }
        Reply::CleanDone { cleaned, upto } => write_clean_done(alloc, out, *cleaned, *upto),
        Reply::ReservedId { at } => write_error_at(alloc, out, *at, "ReservedId"),
        Reply::TooLarge { at, len } => {
            write_error_at_with(alloc, out, *at, "TooLarge", "Len", Piece::Number(*len))
        }
        Reply::CollectionChanged { at, from } => {
            let from = Piece::Text(from.as_str());
            write_error_at_with(alloc, out, *at, "CollectionChanged", "From", from)
        }
        Reply::Conflict {
            at,
            expected,
            found,
        } => write_conflict(alloc, out, *at, expected.as_str(), found.as_str()),
        Reply::StoreFull { at, rows } => {
            let rows = Piece::Number(u64::from(*rows));
            write_error_at_with(alloc, out, *at, "StoreFull", "Rows", rows)
        }
        Reply::EtagsSpent { at, last } => {
            write_error_at_with(alloc, out, *at, "EtagsSpent", "Last", Piece::Number(*last))
        }
        Reply::KeeperFault { .. } => write_error(alloc, out, "KeeperFault"),
    }
}

/// The reply as JSON, without a line end.
pub fn reply_text(alloc: Global, reply: &Reply) -> Result<Vec<u8>, NoMemory>
    ensures { IfOk result (λ bytes. bytes.items ≡ text_of (reply_data (reply_view reply.now))) }
{
    let mut out = Vec::new(alloc);
    write_reply(alloc, &mut out, reply)?;
    Ok(out)
}
