//! Making the changes of a course while the keeper does what it is asked for them.
ghost use Rattle.std.specs.Prelude.{◌≡◌, ◌≢◌, ◌≤◌, [], IfOk, OnErr};
ghost use Rattle.spec_server.specs.Sound.{Sound};
ghost use Rattle.raven_laws.specs.Keeping.{IsItsRows};
ghost use Rattle.spec_desk.specs.Lived.{Follows};
ghost use Rattle.spec_desk.specs.Stepped.{IsMadeInPart, IsStopped, MakesOne, MayMake, Settles, Stays};
ghost use Rattle.raven_desk.specs.SettledView.{settled_view};

use crate::course::Pending;
use crate::keeping::keep;
use crate::live::Live;
use raven_base::NoMemory;
use raven_ports::Keeper;

/// What became of the changes of a course.
#[derive(Clone, Copy)]
pub enum Settled {
    /// All were made.
    All,

    /// The keeper did not do what it was asked for one of them. Those before it were made.
    Stopped {
        /// The keeper's count of faults before the first of the changes.
        before: u64,

        /// Its count of faults now.
        after: u64,
    },
}

impl<K: Keeper> Live<K> {
    // Makes a change if the keeper stores its rows, or removes them, and returns whether it did.
    fn make(&mut self, change: Pending) -> Result<bool, NoMemory>
        requires rows { IsItsRows self.old.world.store change }
        requires sound { Sound change.world }
        ensures made { IfOk result (λ taken. MakesOne self.old change taken self.new) }
        ensures err { OnErr result (Stays self.old self.new) }
        ensures asks { OnErr result (change.rows ≢ []) }
        ensures fronts { self.new.fronts ≡ self.old.fronts }
        ensures later { self.old.keeper.count ≤ self.new.keeper.count }
    {
        if !keep(&mut self.keeper, &change)? {
            return Ok(false);
        }
        self.world = change.into_world();
        Ok(true)
    }

    /// Makes the changes one after another, each once the keeper has stored or removed its rows, for which it is asked once if there are any. The
    /// first for which it fails is not made, and none after it. It takes no memory of its own: out of memory is the keeper's. Then too the change is
    /// not made, and none after it. The changes before stand. So of one change at most nothing was made.
    pub fn settle(&mut self, changes: Vec<Pending>) -> Result<Settled, NoMemory>
        requires may { MayMake self.old changes.items }
        ensures settled { IfOk result (λ s. Settles changes.items self.old (settled_view s) self.new) }
        ensures later { Follows self.old self.new }
        ensures halted { IfOk result (λ s. IsStopped (settled_view s) → IsMadeInPart changes.items self.old self.new) }
        ensures lacks { OnErr result (IsMadeInPart changes.items self.old self.new) }
        ensures fronts { self.new.fronts ≡ self.old.fronts }
    {
        let before = self.faults();
        for change in changes {
            if !self.make(change)? {
                let after = self.faults();
                return Ok(Settled::Stopped { before, after });
            }
        }
        Ok(Settled::All)
    }
}
