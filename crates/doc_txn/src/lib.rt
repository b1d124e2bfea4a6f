//! Transactions: commands that are all taken, or none of them.
#![tactic(auto)]

mod base_id;
mod command;
mod document;
mod fault;
mod limits;
mod refusal;
mod row;
mod transaction;

pub use base_id::{BaseId, vector};
pub use command::{Command, Commands, Expect, Writer};
pub use document::{is_own, stored};
pub use fault::{TxnFault, TxnKind};
pub use limits::Limits;
pub use refusal::is_index_id;
pub use row::spelling;
pub use transaction::{Etags, Transaction, commit, transact, transact_one};
