//! How much a database may hold.
ghost use Rattle.std.specs.Prelude.{◌≡◌};
ghost use Rattle.spec_store.specs.Limits.{base_id, program as spec_program};
ghost use Rattle.doc_txn.specs.SettingView.{setting_of};

/// How much a database may hold.
#[derive(Clone, Copy)]
pub struct Limits {
    /// Rows, tombstones among them.
    pub rows: u32,

    /// Live indexes.
    pub slots: u32,

    /// Notes of switches.
    pub notes: u32,
}

impl Limits {
    /// The limits of the program.
    pub fn program() -> Limits
        ensures { setting_of base_id result ≡ spec_program }
    {
        Limits {
            rows: 4_000_000,
            slots: 256,
            notes: 65_536,
        }
    }
}
