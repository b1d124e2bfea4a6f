//! Sets of ids as lists in order, in which each id is there once.
ghost use Rattle.std.specs.Prelude.{◌≡◌, ◌||◌, ◌&&◌, ◌++◌, ◌∷◌, [], ℕ, List, true, IfOk, OnOk, not, cond};
ghost use Rattle.std.specs.Ordering.{is_le};
ghost use Rattle.reference_track.specs.Sets.{AreInOrder, id_cmp, is_one_of};
ghost use Rattle.term_index.specs.Held.{is_first};

use raven_base::NoMemory;
use raven_value::{Id, Ids};
use std::alloc::Global;

/// Adds ids at the end.
pub(crate) fn add(ids: &mut Vec<Id>, more: Ids) -> Result<(), NoMemory>
    ensures { OnOk result (ids.new.items ≡ ids.old.items ++ more) }
{
    let mut more = more.into_vec();
    ids.append(&mut more)?;
    Ok(())
}

/// These ids in order, each once. It takes no memory.
pub(crate) fn in_order(mut ids: Vec<Id>) -> Ids
    ensures members { (q : List ℕ) → is_one_of q result ≡ is_one_of q ids.items }
    ensures order { AreInOrder result }
{
    ids.sort_unstable();
    ids.dedup();
    Ids::of(ids)
}

/// The ids from this one on.
fn from<'a>(ids: &'a [Id], id: &Id) -> &'a [Id]
    requires { AreInOrder ids.now }
    ensures members { (q : List ℕ) → is_le (id_cmp id.now q) ≡ true → is_one_of q result.now ≡ is_one_of q ids.now }
    ensures order { AreInOrder result.now }
    ensures first { is_one_of id.now result.now ≡ is_first id.now result.now }
{
    let mut rest = ids;
    while let Some((first, more)) = rest.split_first() {
        if !first.cmp(id).is_lt() {
            break;
        }
        rest = more;
    }
    rest
}

/// Whether this id is the first.
fn is_first(ids: &[Id], id: &Id) -> bool
    ensures { result ≡ is_first id.now ids.now }
{
    match ids.first() {
        Some(first) => *id == *first,
        None => false,
    }
}

fn is_wanted(is_inside: bool, inside: bool) -> bool
    ensures { result ≡ cond inside is_inside (not is_inside) }
{
    if inside { is_inside } else { !is_inside }
}

/// Adds an id, or leaves it out.
fn push_if(ids: &mut Ids, id: &Id, keeps: bool) -> Result<(), NoMemory>
    ensures { OnOk result (ids.new ≡ ids.old ++ cond keeps (id.now ∷ []) []) }
{
    if keeps {
        ids.push(id.clone()?)?;
    }
    Ok(())
}

/// Those of the ids that are among the others, or those that are not, in one walk over both.
fn kept(alloc: Global, ids: &[Id], others: &[Id], inside: bool) -> Result<Ids, NoMemory>
    requires ids { AreInOrder ids.now }
    requires others { AreInOrder others.now }
    ensures members { IfOk result (λ kept. (q : List ℕ) → is_one_of q kept ≡ is_one_of q ids.now && cond inside (is_one_of q others.now) (not (is_one_of q others.now))) }
    ensures order { IfOk result (λ kept. AreInOrder kept) }
{
    let mut kept = Ids::new(alloc);
    let mut rest = others;
    for id in ids {
        rest = from(rest, id);
        push_if(&mut kept, id, is_wanted(is_first(rest, id), inside))?;
    }
    Ok(kept)
}

/// The ids of both sets, in one walk over them.
pub fn common(alloc: Global, ids: &[Id], others: &[Id]) -> Result<Ids, NoMemory>
    requires ids { AreInOrder ids.now }
    requires others { AreInOrder others.now }
    ensures members { IfOk result (λ common. (q : List ℕ) → is_one_of q common ≡ is_one_of q ids.now && is_one_of q others.now) }
    ensures order { IfOk result (λ common. AreInOrder common) }
{
    kept(alloc, ids, others, true)
}

/// The ids of the first set that are not in the other, in one walk over them.
pub fn without(alloc: Global, ids: &[Id], others: &[Id]) -> Result<Ids, NoMemory>
    requires ids { AreInOrder ids.now }
    requires others { AreInOrder others.now }
    ensures members { IfOk result (λ left. (q : List ℕ) → is_one_of q left ≡ is_one_of q ids.now && not (is_one_of q others.now)) }
    ensures order { IfOk result (λ left. AreInOrder left) }
{
    kept(alloc, ids, others, false)
}

/// The ids of either set.
pub fn union(ids: Ids, others: Ids) -> Result<Ids, NoMemory>
    ensures members { IfOk result (λ all. (q : List ℕ) → is_one_of q all ≡ is_one_of q ids || is_one_of q others) }
    ensures order { IfOk result (λ all. AreInOrder all) }
{
    let mut all = ids.into_vec();
    add(&mut all, others)?;
    Ok(in_order(all))
}
