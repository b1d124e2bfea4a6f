//! The server with threads: the connections of doors are served beside one another, over one database under a turn.
#![tactic(auto)]

mod calls;
mod ends;
mod jobs;
mod jobsets;
mod laws;
mod next;
mod pump;
mod server;
mod work;

pub use ends::{ServeEnd, Served, Serving};
pub use laws::{
    calls_go_on, connections_are_served_in_order, servers_come_to_their_end,
    sessions_have_receipts, writes_stand_unless_cleaned,
};
pub use next::{Next, serve_next};
pub use server::serve;
