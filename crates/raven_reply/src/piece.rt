//! Objects that are printed member by member.
ghost use Rattle.std.specs.Prelude.{◌≡◌, ◌++◌, ◌∷◌, OnOk, false, map};
ghost use Rattle.spec_data.specs.Data.{entries_of, object};
ghost use Rattle.spec_data.specs.Written.{entries_text, quoted, text_of};
ghost use Rattle.raven_reply.specs.Pieces.{piece_data};

use crate::values::{write_list, write_map};
use raven_base::NoMemory;
use raven_json::{ShownList, ShownMembers, write_text, write_to};
use raven_value::Value;
use std::alloc::Global;

/// The value of a member.
#[derive(Clone, Copy)]
pub enum Piece<'a> {
    Text(&'a str),
    Number(u64),
    Flag(bool),
    Json(&'a Value),
    List(&'a ShownList),
    Map(&'a ShownMembers),
}

/// Adds these bytes.
pub fn write_bytes(out: &mut Vec<u8>, bytes: &[u8]) -> Result<(), NoMemory>
    ensures { OnOk result (out.new.items ≡ out.old.items ++ bytes.now) }
{
    out.extend_from_slice(bytes)?;
    Ok(())
}

/// Adds the value as JSON.
pub fn write_piece(alloc: Global, out: &mut Vec<u8>, piece: &Piece) -> Result<(), NoMemory>
    ensures { OnOk result (out.new.items ≡ out.old.items ++ text_of (piece_data piece.now)) }
{
    match piece {
        Piece::Text(text) => write_text(out, text),
        Piece::Number(number) => write_bytes(out, number.to_string(alloc)?.as_bytes()),
        Piece::Flag(flag) => write_bytes(out, if *flag { b"true" } else { b"false" }),
        Piece::Json(value) => write_to(alloc, out, value),
        Piece::List(values) => write_list(alloc, out, values),
        Piece::Map(members) => write_map(alloc, out, members),
    }
}

#[tactic(auto, using(crate::proofs::Printed::printed))]
fn write_member(alloc: Global, out: &mut Vec<u8>, name: &str, piece: &Piece) -> Result<(), NoMemory>
    ensures { OnOk result (out.new.items ≡ out.old.items ++ (quoted name.now ++ 58 ∷ text_of (piece_data piece.now))) }
{
    write_text(out, name)?;
    write_bytes(out, b":")?;
    write_piece(alloc, out, piece)
}

fn write_members(
    alloc: Global,
    out: &mut Vec<u8>,
    members: &[(&str, Piece)],
) -> Result<(), NoMemory>
    ensures { OnOk result (out.new.items ≡ out.old.items ++ entries_text false (entries_of (map (λ m. (m.0.now, piece_data m.1)) members.now))) }
{
    let mut later = false;
    for member in members {
        if later {
            write_bytes(out, b",")?;
        }
        write_member(alloc, out, member.0, &member.1)?;
        later = true;
    }
    Ok(())
}

/// Adds an object of these members.
#[tactic(auto, using(crate::proofs::Printed::printed))]
pub fn write_object(
    alloc: Global,
    out: &mut Vec<u8>,
    members: &[(&str, Piece)],
) -> Result<(), NoMemory>
    ensures { OnOk result (out.new.items ≡ out.old.items ++ text_of (object (entries_of (map (λ m. (m.0.now, piece_data m.1)) members.now)))) }
{
    write_bytes(out, b"{")?;
    write_members(alloc, out, members)?;
    write_bytes(out, b"}")
}
