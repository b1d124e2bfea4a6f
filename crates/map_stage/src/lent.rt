//! Lists and objects while a document is mapped.
ghost use Rattle.std.specs.Prelude.{◌≡◌, IfOk};
ghost use Rattle.map_stage.specs.LentView.{lent_value};

use raven_base::{NoMemory, Shared};

/// A value that lies in another one, or that its copies share.
pub enum Lent<'a, T> {
    Borrowed(&'a T),
    Shared(Shared<T>),
}

// Opaque drop: see raven_base.
impl<'a, T: Drop> Drop for Lent<'a, T> {
    fn drop(self) {
        match self {
            Lent::Borrowed(_value) => {}
            Lent::Shared(_value) => {}
        }
    }
}

impl<'a, T: Drop> Lent<'a, T> {
    /// The value.
    pub fn get(&self) -> &T
        ensures { result.now ≡ lent_value self.now }
    {
        match self {
            Lent::Borrowed(value) => *value,
            Lent::Shared(shared) => shared.get(),
        }
    }

    /// The same value. It takes no memory.
    pub fn copy(&self) -> Result<Lent<'a, T>, NoMemory>
        ensures { IfOk result (λ lent. lent_value lent ≡ lent_value self.now) }
    {
        Ok(match self {
            Lent::Borrowed(value) => Lent::Borrowed(*value),
            Lent::Shared(shared) => Lent::Shared(shared.clone()?),
        })
    }
}
