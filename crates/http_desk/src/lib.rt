//! Requests over HTTP, answered from a desk.
#![tactic(auto)]

mod asking;
mod desk_answers;
mod laws;
mod serving;
mod session;

pub use asking::ask_desk;
pub use desk_answers::DeskAnswers;
pub use laws::{sessions_are_chains, sessions_go_on, valid_sessions_come_to_their_end};
pub use serving::{ServeEnd, Served, Serving, serve_input};
pub use session::serve_alone;
