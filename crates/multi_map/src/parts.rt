//! The parts of an index of several maps.
ghost use Rattle.std.specs.Prelude.{◌≡◌, IfOk, length, map, option_copied};
ghost use Rattle.spec_server.specs.Several.{is_one_stale as spec_is_one_stale, least_etag as spec_least_etag, other_part as spec_other_part, parts_from};

use doc_store::Store;
use index_lang::same_reduce;
use index_version::IndexVersion;
use query_replies::is_stale;
use raven_base::NoMemory;
use side_by_side::{Slot, serving_in, with_number};
use std::alloc::Global;

/// The indexes that serve the name with `/1`, `/2` and so on behind it, up to the first that none serves.
#[tactic(auto, using(crate::proofs::Named::naming))]
pub fn parts_of<'a>(alloc: Global, slots: &'a [Slot], name: &str) -> Result<Vec<&'a Slot>, NoMemory>
    ensures { IfOk result (λ parts. map (λ s. s.now) parts.items ≡ parts_from (length slots.now) 1 name.now slots.now) }
{
    let mut parts = Vec::new(alloc);
    for before in 0..slots.len() {
        let part = with_number(alloc, name, before as u64 + 1)?;
        match serving_in(slots, part.as_str()) {
            Some(slot) => parts.push(slot)?,
            None => return Ok(parts),
        }
    }
    Ok(parts)
}

/// The first of these parts whose reduce is not that of the first part.
pub fn other_part<'a>(first: &Slot, parts: &[&'a Slot]) -> Option<&'a Slot>
    ensures { option_copied result ≡ spec_other_part first.now (map (λ s. s.now) parts.now) }
{
    let definition = first.version.definition();
    for slot in parts {
        if !same_reduce(definition, slot.version.definition()) {
            return Some(slot);
        }
    }
    None
}

/// How far each of these parts has come.
pub fn versions_of<'a>(alloc: Global, parts: &[&'a Slot]) -> Result<Vec<&'a IndexVersion>, NoMemory>
    ensures { IfOk result (λ versions. map (λ v. v.now.version) versions.items ≡ map (λ s. s.now.version) parts.now) }
{
    let mut versions = Vec::with_capacity(alloc, parts.len())?;
    for slot in parts {
        let version: &IndexVersion = &slot.version;
        versions.push(version)?;
    }
    Ok(versions)
}

/// The least etag of the first part and of these.
pub fn least_etag(first: &Slot, parts: &[&Slot]) -> u64
    ensures { result ≡ spec_least_etag first.now.version.etag (map (λ s. s.now) parts.now) }
{
    let mut least = first.version.etag();
    for slot in parts {
        least = least.min(slot.version.etag());
    }
    least
}

/// Whether one of these parts has not seen a row of the store that it reads, up to the cutoff if there is one.
pub fn is_one_stale(store: &Store, parts: &[&Slot], cutoff: Option<u64>) -> bool
    ensures { result ≡ spec_is_one_stale store.now cutoff (map (λ s. s.now) parts.now) }
{
    for slot in parts {
        if is_stale(store, &slot.version, cutoff) {
            return true;
        }
    }
    false
}
