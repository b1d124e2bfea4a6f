//! A session over HTTP: the requests of a source are read, asked and answered, one after another.
#![tactic(auto)]

mod answering;
mod conn;
mod ends;
mod session;
mod why;

pub use answering::Answering;
pub use conn::serve_conn;
pub use ends::answer_to_end;
pub use session::serve;
pub use why::Why;
