//! What a file of cases asks for.
use crate::clock::CaseClock;
use raven_base::Numbers;
use raven_ports::MemKeeper;

/// Runs of the program, one after another over one keeper.
#[derive(Drop)]
pub struct Case {
    pub name: String,

    /// The keeper that the first run is called with.
    pub keeper: MemKeeper,

    /// In order, and at least one.
    pub runs: Vec<Run>,
}

/// One run of the program.
#[derive(Drop)]
pub struct Run {
    /// The arguments of the program.
    pub arguments: Vec<String>,

    pub clock: CaseClock,

    /// The input and the output.
    pub ends: Ends,

    /// The most bytes that a call of the input gives.
    pub gives: usize,

    /// The calls of the crew that fail, counted from 1.
    pub crew: Numbers,

    pub doors: Vec<CaseDoor>,

    /// Whether the rows that the keeper holds after the run are printed.
    pub shows_rows: bool,
}

/// Where bytes come from and go to: the input and the output of a run, or a connection.
#[derive(Drop)]
pub struct Ends {
    /// The calls of the source that fail, counted from 1.
    pub reads: Numbers,

    /// The calls of the sink that fail, counted from 1.
    pub writes: Numbers,

    /// The bytes of the source.
    pub bytes: Vec<u8>,
}

/// A door of a run.
#[derive(Drop)]
pub struct CaseDoor {
    /// The calls to accept a connection that fail, counted from 1.
    pub accepts: Numbers,

    /// The connections that come in at it, in order.
    pub conns: Vec<Ends>,
}
