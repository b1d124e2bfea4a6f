//! Which names have a replacement.
ghost use Rattle.std.specs.Prelude.{◌≡◌, IfOk, OnOk, filter, is_some, map};
ghost use Rattle.std.specs.Ordering.{on};
ghost use Rattle.spec_data.specs.Faults.{replacement_of};
ghost use Rattle.spec_data.specs.Folding.{folded, key_cmp};
ghost use Rattle.spec_store.specs.Commit.{Setting};
ghost use Rattle.spec_store.specs.Store.{Store};
ghost use Rattle.spec_query.specs.Sorting.{inserted, sorted};
ghost use Rattle.spec_index.specs.World.{serving};
ghost use Rattle.spec_server.specs.Indexing.{replaced_names};
ghost use Rattle.side_by_side.specs.Standing.{world_of};

use crate::slot::Slot;
use crate::slots::Slots;
use raven_base::NoMemory;
use raven_value::Name;
use std::alloc::Global;

// Puts a name before the first that it does not come behind.
fn insert(names: &mut Vec<Name>, name: Name) -> Result<(), NoMemory>
    ensures { OnOk result (names.new.items ≡ inserted (on folded key_cmp) name names.old.items) }
{
    let mut at = 0;
    while at < names.len() && name.cmp(&names[at]).is_gt() {
        at += 1;
    }
    names.insert(at, name)?;
    Ok(())
}

impl Slots {
    fn is_replaced(&self, alloc: Global, slot: &Slot) -> Result<bool, NoMemory>
        ensures { IfOk result (λ flag. flag ≡ is_some (serving self.now.slots (replacement_of slot.now.name))) }
    {
        Ok(self.beside(alloc, slot)?.is_some())
    }

    // The names of those of these indexes that have a replacement, in order.
    fn replaced_among(&self, alloc: Global, slots: &[Slot]) -> Result<Vec<Name>, NoMemory>
        ensures { IfOk result (λ names. names.items ≡ sorted (on folded key_cmp) (map (λ s. s.name) (filter (λ s. is_some (serving self.now.slots (replacement_of s.name))) slots.now))) }
    {
        let [slot, more @ ..] = slots else {
            return Ok(Vec::new(alloc));
        };
        let mut names = self.replaced_among(alloc, more)?;
        if !self.is_replaced(alloc, slot)? {
            return Ok(names);
        }
        insert(&mut names, slot.name.clone()?)?;
        Ok(names)
    }

    /// The names of the indexes that have a replacement, in the order of their folded bytes.
    pub fn replaced(&self, alloc: Global) -> Result<Vec<Name>, NoMemory>
        ensures { (setting : Setting) (S : Store) → IfOk result (λ names. names.items ≡ replaced_names (world_of setting S self.now)) }
    {
        self.replaced_among(alloc, self.list())
    }
}
