//! The devices of the program: input, output, keeper and clock, and the same in memory.
#![tactic(auto)]

mod byte_conn;
mod calls;
mod give;
mod keeper;
mod log;
mod mem_keeper;
mod memory;
mod ports;
mod read;
mod rising;
mod still_clock;

pub use byte_conn::ByteConn;
pub use give::give_all;
pub use keeper::{Clock, Keeper, KeeperFault, KeptRow, KeptRows};
pub use mem_keeper::MemKeeper;
pub use memory::{ByteSink, ByteSource};
pub use ports::{Connection, Failed, Sink, SinkFault, Source};
pub use read::{ReadStop, read_all};
pub use rising::etags_rise;
pub use still_clock::StillClock;
