//! The server over HTTP: what requests ask, and the responses to them.
#![tactic(auto)]

mod answers;
mod indexes;
mod laws;
mod parameters;
mod refusal;
mod requests;
mod status;

pub use answers::{answer, answer_to_refusal};
pub use laws::{requests_are_read_one_way, requests_are_well_formed};
pub use refusal::HttpRefusal;
pub use requests::asked;
