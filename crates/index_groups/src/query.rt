//! What a reduce says, as groups keep it.
ghost use Rattle.std.specs.Prelude.{◌≡◌, IfOk};

use index_tree::{FoldMember, FoldMembers, FoldValue, ReduceQuery};
use raven_base::NoMemory;
use std::alloc::Global;

fn copied_value(value: &FoldValue) -> Result<FoldValue, NoMemory>
    ensures { IfOk result (λ copy. copy ≡ value.now) }
{
    Ok(match value {
        FoldValue::Key(name) => FoldValue::Key(name.clone()?),
        FoldValue::Fold { kind, var, field } => FoldValue::Fold {
            kind: *kind,
            var: var.clone()?,
            field: field.clone()?,
        },
        FoldValue::Quotient {
            var,
            field,
            by_var,
            by,
        } => FoldValue::Quotient {
            var: var.clone()?,
            field: field.clone()?,
            by_var: by_var.clone()?,
            by: by.clone()?,
        },
    })
}

fn copied_member(member: &FoldMember) -> Result<FoldMember, NoMemory>
    ensures { IfOk result (λ copy. copy ≡ member.now) }
{
    Ok(FoldMember {
        name: member.name.clone()?,
        value: copied_value(&member.value)?,
    })
}

fn copied_members(alloc: Global, members: &[FoldMember]) -> Result<FoldMembers, NoMemory>
    ensures { IfOk result (λ copies. copies ≡ members.now) }
{
    let mut copies = FoldMembers::new(alloc);
    for member in members {
        copies.push(copied_member(member)?)?;
    }
    Ok(copies)
}

/// A copy, which shares the long texts.
pub fn copied(alloc: Global, query: &ReduceQuery) -> Result<ReduceQuery, NoMemory>
    ensures { IfOk result (λ copy. copy ≡ query.now) }
{
    Ok(ReduceQuery {
        var: query.var.clone()?,
        group: query.group.clone()?,
        key: query.key.clone()?,
        members: copied_members(alloc, query.members.as_slice())?,
    })
}
