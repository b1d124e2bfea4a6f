//! The reduce of an automatic index with groups.
ghost use Rattle.std.specs.Prelude.{◌≡◌, ◌++◌, ◌∷◌, IfOk, map};
ghost use Rattle.index_tree.specs.Mapper.{count_name, joined, sum_name as spec_sum_name};
ghost use Rattle.spec_index.specs.Reduces.{auto_reduce as spec_auto_reduce, key_member as spec_key_member, sum_member as spec_sum_member};

use index_definition::{COUNT_NAME, joined_name, sum_name};
use index_tree::{FoldKind, FoldMember, FoldMembers, FoldValue, ReduceQuery, Texts};
use raven_base::NoMemory;
use raven_value::{Path, Text};
use std::alloc::Global;

/// Entries are grouped by these paths, those of a group are counted, and what they have at the others is summed.
pub fn auto_reduce(alloc: Global, groups: &[Path], sums: &[Path]) -> Result<ReduceQuery, NoMemory>
    ensures { IfOk result (λ query. query ≡ spec_auto_reduce groups.now sums.now) }
{
    Ok(ReduceQuery {
        var: Text::of(alloc, "r")?,
        group: Text::of(alloc, "g")?,
        key: key_names(alloc, groups)?,
        members: members_of(alloc, groups, sums)?,
    })
}

fn key_names(alloc: Global, groups: &[Path]) -> Result<Texts, NoMemory>
    ensures { IfOk result (λ names. names ≡ map joined groups.now) }
{
    let mut names = Texts::new(alloc);
    for path in groups {
        names.push(joined_name(alloc, path)?)?;
    }
    Ok(names)
}

// First the key, then the count, then the sums.
fn members_of(alloc: Global, groups: &[Path], sums: &[Path]) -> Result<FoldMembers, NoMemory>
    ensures { IfOk result (λ members. members ≡ map spec_key_member groups.now ++ spec_sum_member count_name ∷ map (λ path. spec_sum_member (spec_sum_name path)) sums.now) }
{
    let mut members = key_members(alloc, groups)?;
    members.push(sum_member(alloc, Text::of(alloc, COUNT_NAME)?)?)?;
    for path in sums {
        members.push(sum_member(alloc, sum_name(alloc, path)?)?)?;
    }
    Ok(members)
}

fn key_members(alloc: Global, groups: &[Path]) -> Result<FoldMembers, NoMemory>
    ensures { IfOk result (λ members. members ≡ map spec_key_member groups.now) }
{
    let mut members = FoldMembers::new(alloc);
    for path in groups {
        members.push(key_member(alloc, path)?)?;
    }
    Ok(members)
}

fn key_member(alloc: Global, path: &Path) -> Result<FoldMember, NoMemory>
    ensures { IfOk result (λ member. member ≡ spec_key_member path.now) }
{
    let name = joined_name(alloc, path)?;
    let part = name.clone()?;
    Ok(FoldMember {
        name,
        value: FoldValue::Key(part),
    })
}

fn sum_member(alloc: Global, name: Text) -> Result<FoldMember, NoMemory>
    ensures { IfOk result (λ member. member ≡ spec_sum_member name) }
{
    let field = name.clone()?;
    Ok(FoldMember {
        name,
        value: FoldValue::Fold {
            kind: FoldKind::Sum,
            var: Text::of(alloc, "x")?,
            field,
        },
    })
}
