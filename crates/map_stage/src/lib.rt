//! The maps of indexes: what entry a document gives, and which documents were looked up for it.
#![tactic(auto)]

mod date;
mod entry;
mod evaluate;
mod fields;
mod held;
mod lang_mapper;
mod lent;
mod load;
mod lookup;
mod mapper;
mod number;
mod operator;
mod scene;
mod ticket;

pub use fields::Entry;
pub use held::scalar_of;
pub use lang_mapper::LangMapper;
pub use lookup::Lookup;
pub use mapper::{Mapped, Mapper, Outcome};
pub use ticket::Ticket;
