//! The real doors, their connections and the real crew: TCP on the loopback address, and threads. They do not report their contents.
#![tactic(auto)]

mod conn;
mod crew;
mod door;

pub use conn::RealConn;
pub use crew::RealCrew;
pub use door::{Listening, TcpDoor};
