//! Errors as they are printed.
ghost use Rattle.std.specs.Prelude.{◌≡◌, ◌++◌, ◌∷◌, [], OnOk};
ghost use Rattle.spec_data.specs.Written.{text_of};
ghost use Rattle.spec_query.specs.Refusals.{kind_name as spec_rql_kind_name};
ghost use Rattle.spec_server.specs.Replies.{BadQuery, Conflict, Lang as LangOf, NotFresh, error, error_at, reply_data};
ghost use Rattle.index_tree.specs.Language.{kind_name as spec_kind_name, part_name as spec_part_name};
ghost use Rattle.index_definition.specs.RefusalView.{kind_view, part_view, refusal_view};
ghost use Rattle.rql_grammar.specs.Kinds.{kind_view as rql_kind_view, query_refusal};
ghost use Rattle.raven_reply.specs.Pieces.{piece_data};

use crate::piece::{Piece, write_object};
use index_definition::{LangKind, Part};
use raven_base::NoMemory;
use rql_grammar::RqlKind;
use std::alloc::Global;

/// Adds an error of this name.
pub fn write_error(alloc: Global, out: &mut Vec<u8>, name: &str) -> Result<(), NoMemory>
    ensures { OnOk result (out.new.items ≡ out.old.items ++ text_of (error name.now [])) }
{
    write_object(alloc, out, &[("Error", Piece::Text(name))])
}

/// Adds an error with one further member, whose name comes behind `Error`.
pub fn write_error_with(
    alloc: Global,
    out: &mut Vec<u8>,
    name: &str,
    member: &str,
    piece: Piece,
) -> Result<(), NoMemory>
    ensures { OnOk result (out.new.items ≡ out.old.items ++ text_of (error name.now ((member.now, piece_data piece.entry) ∷ []))) }
{
    write_object(alloc, out, &[("Error", Piece::Text(name)), (member, piece)])
}

/// Adds an error at a place.
pub fn write_error_at(alloc: Global, out: &mut Vec<u8>, at: u64, name: &str) -> Result<(), NoMemory>
    ensures { OnOk result (out.new.items ≡ out.old.items ++ text_of (error_at at name.now [])) }
{
    write_object(
        alloc,
        out,
        &[("At", Piece::Number(at)), ("Error", Piece::Text(name))],
    )
}

/// Adds an error at a place, with one further member.
pub fn write_error_at_with<'a>(
    alloc: Global,
    out: &mut Vec<u8>,
    at: u64,
    name: &'a str,
    member: &'a str,
    piece: Piece<'a>,
) -> Result<(), NoMemory>
    ensures { OnOk result (out.new.items ≡ out.old.items ++ text_of (error_at at name.now ((member.now, piece_data piece.entry) ∷ []))) }
{
    write_object(
        alloc,
        out,
        &[
            ("At", Piece::Number(at)),
            ("Error", Piece::Text(name)),
            (member, piece),
        ],
    )
}

/// Adds the error that another vector was expected.
pub fn write_conflict<'a>(
    alloc: Global,
    out: &mut Vec<u8>,
    at: u64,
    expected: &'a str,
    found: &'a str,
) -> Result<(), NoMemory>
    ensures { OnOk result (out.new.items ≡ out.old.items ++ text_of (reply_data (Conflict at expected.now found.now))) }
{
    write_object(
        alloc,
        out,
        &[
            ("At", Piece::Number(at)),
            ("Error", Piece::Text("Conflict")),
            ("Expected", Piece::Text(expected)),
            ("Found", Piece::Text(found)),
        ],
    )
}

/// Adds the error that a replacement lags.
pub fn write_not_fresh(
    alloc: Global,
    out: &mut Vec<u8>,
    index_etag: u64,
    newest: u64,
) -> Result<(), NoMemory>
    ensures { OnOk result (out.new.items ≡ out.old.items ++ text_of (reply_data (NotFresh index_etag newest))) }
{
    write_object(
        alloc,
        out,
        &[
            ("Error", Piece::Text("NotFresh")),
            ("IndexEtag", Piece::Number(index_etag)),
            ("Newest", Piece::Number(newest)),
        ],
    )
}

fn part_name(part: Part) -> &'static str
    ensures { result.now ≡ spec_part_name (part_view part) }
{
    match part {
        Part::Map => "Map",
        Part::Reduce => "Reduce",
    }
}

fn kind_name(kind: LangKind) -> &'static str
    ensures { result.now ≡ spec_kind_name (kind_view kind) }
{
    match kind {
        LangKind::Unexpected => "Unexpected",
        LangKind::UnknownName => "UnknownName",
        LangKind::DuplicateField => "DuplicateField",
        LangKind::FieldsDiffer => "FieldsDiffer",
        LangKind::NotReducible => "NotReducible",
        LangKind::TooLarge => "TooLarge",
    }
}

/// Adds the refusal of a text of a definition.
pub fn write_lang(
    alloc: Global,
    out: &mut Vec<u8>,
    part: Part,
    at: u64,
    kind: LangKind,
) -> Result<(), NoMemory>
    ensures { OnOk result (out.new.items ≡ out.old.items ++ text_of (reply_data (LangOf (refusal_view part at kind)))) }
{
    write_object(
        alloc,
        out,
        &[
            ("At", Piece::Number(at)),
            ("Error", Piece::Text(kind_name(kind))),
            ("Part", Piece::Text(part_name(part))),
        ],
    )
}

fn rql_kind_name(kind: RqlKind) -> &'static str
    ensures { result.now ≡ spec_rql_kind_name (rql_kind_view kind) }
{
    match kind {
        RqlKind::TooLarge => "TooLarge",
        RqlKind::ClauseOrder => "ClauseOrder",
        RqlKind::BadNumber => "BadNumber",
        RqlKind::Unexpected => "Unexpected",
    }
}

/// Adds the refusal of the text of a query.
pub fn write_rql(alloc: Global, out: &mut Vec<u8>, at: u64, kind: RqlKind) -> Result<(), NoMemory>
    ensures { OnOk result (out.new.items ≡ out.old.items ++ text_of (reply_data (BadQuery (query_refusal at kind)))) }
{
    write_error_at(alloc, out, at, rql_kind_name(kind))
}
