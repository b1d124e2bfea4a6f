//! What workers hold.
ghost use Rattle.std.specs.Prelude.{◌≡◌, ◌==◌, [], IfOk, OnErr, OnOk, find, option_copied, option_map};
ghost use Rattle.raven_run.specs.Holding.{after_read, of_others};

use index_version::IndexVersion;
use raven_base::NoMemory;
use std::alloc::{AllocError, Global};
use std::marker::Model;
use std::sync::Arc;

/// A batch that a worker has read and not yet published, which its copies share.
pub(crate) struct Held {
    worker: u8,

    /// The number of the index.
    number: u64,

    /// How far the batch brings the index.
    version: Arc<IndexVersion>,
}

// Opaque drop: see raven_base.
impl Drop for Held {
    fn drop(self) {
        let Held {
            worker: _worker,
            number: _number,
            version: _version,
        } = self;
    }
}

impl Model for Held {
    ghost use Rattle.raven_run.specs.Holding.{NamedBatch, named_batch_code};

    ghost Value = { NamedBatch };

    ghost coded = { named_batch_code };

    ghost view = { λ h. record { worker = h.worker; number = h.number; version = h.version.value } };
}

impl Clone for Held {
    ghost is_clone = { λ h copy. copy ≡ h };

    fn clone(&self) -> Result<Held, AllocError> {
        Ok(Held {
            worker: self.worker,
            number: self.number,
            version: self.version.clone()?,
        })
    }
}

impl Held {
    /// The number of the index, and how far the batch brings it.
    pub(crate) fn batch(&self) -> Result<(u64, Arc<IndexVersion>), NoMemory>
        ensures number { IfOk result (λ batch. batch.0 ≡ self.now.number) }
        ensures version { IfOk result (λ batch. batch.1.value ≡ self.now.version) }
    {
        Ok((self.number, self.version.clone()?))
    }
}

/// What all workers hold: at most one batch each.
pub(crate) struct Workers {
    held: Vec<Held>,
}

// Opaque drop: see raven_base.
impl Drop for Workers {
    fn drop(self) {
        let Workers { held: _held } = self;
    }
}

impl Model for Workers {
    ghost use Rattle.std.specs.Prelude.{List};
    ghost use Rattle.std.specs.Coded.{coded_list};
    ghost use Rattle.raven_run.specs.Holding.{NamedBatch, named_batch_code};

    ghost Value = { List NamedBatch };

    ghost coded = { coded_list named_batch_code };

    ghost view = { λ w. w.held.items };
}

// The batches that another worker holds.
fn others(alloc: Global, held: &[Held], worker: u8) -> Result<Vec<Held>, NoMemory>
    ensures { IfOk result (λ new. new.items ≡ of_others worker held.now) }
{
    let mut new = Vec::new(alloc);
    for one in held {
        if one.worker != worker {
            new.push(one.clone()?)?;
        }
    }
    Ok(new)
}

fn held_in(held: &[Held], worker: u8) -> Option<&Held>
    ensures { option_copied result ≡ find (λ b. b.worker == worker) held.now }
{
    for one in held {
        if one.worker == worker {
            return Some(one);
        }
    }
    None
}

impl Workers {
    /// Nobody holds anything.
    pub(crate) fn idle(alloc: Global) -> Workers
        ensures { result ≡ [] }
    {
        Workers {
            held: Vec::new(alloc),
        }
    }

    /// The batch that the worker holds.
    pub(crate) fn held_by(&self, worker: u8) -> Option<&Held>
        ensures { option_copied result ≡ find (λ b. b.worker == worker) self.now }
    {
        held_in(&self.held, worker)
    }

    /// The same, but this worker holds nothing.
    pub(crate) fn without(&self, alloc: Global, worker: u8) -> Result<Workers, NoMemory>
        ensures { IfOk result (λ new. new ≡ of_others worker self.now) }
    {
        Ok(Workers {
            held: others(alloc, &self.held, worker)?,
        })
    }

    /// Lets the worker hold this version of the index of this number, or nothing, in place of what it held.
    pub(crate) fn hold(
        &mut self,
        alloc: Global,
        worker: u8,
        number: u64,
        version: Option<Arc<IndexVersion>>,
    ) -> Result<(), NoMemory>
        ensures done { OnOk result (self.new ≡ after_read worker number (option_map (λ v. v.value) version) self.old) }
        ensures kept { OnErr result (self.new ≡ self.old) }
    {
        let mut held = others(alloc, &self.held, worker)?;
        if let Some(version) = version {
            held.push(Held {
                worker,
                number,
                version,
            })?;
        }
        self.held = held;
        Ok(())
    }
}
