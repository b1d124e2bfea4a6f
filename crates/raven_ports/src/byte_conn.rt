//! A connection in memory.
ghost use Rattle.std.specs.Prelude.{◌≡◌};
ghost use Rattle.raven_ports.specs.Memory.{sink_state, source_state};

use crate::memory::{ByteSink, ByteSource};
use crate::ports::{Connection, Failed, Sink, SinkFault, Source};
use std::marker::Model;

/// A connection that gives bytes of memory and keeps those that it is given.
pub struct ByteConn {
    input: ByteSource,
    output: ByteSink,
}

// Opaque drop: see raven_base.
impl Drop for ByteConn {
    fn drop(self) {
        let ByteConn {
            input: _input,
            output: _output,
        } = self;
    }
}

impl Model for ByteConn {
    ghost use Rattle.raven_ports.specs.Memory.{Memory};

    ghost Value = { Memory × Memory };

    ghost view = { λ a. (a.input, a.output) };
}

impl ByteConn {
    /// A connection of these two ends, whose calls fail as theirs do. It takes no memory.
    pub fn of(input: ByteSource, output: ByteSink) -> ByteConn
        ensures { result ≡ (input, output) }
    {
        ByteConn { input, output }
    }

    /// The bytes that are left to take.
    pub fn left(&self) -> &[u8]
        ensures { result.now ≡ self.now.0.bytes }
    {
        self.input.left()
    }

    /// The bytes that it was given.
    pub fn held(&self) -> &[u8]
        ensures { result.now ≡ self.now.1.bytes }
    {
        self.output.held()
    }
}

impl Source for ByteConn {
    ghost use Rattle.std.specs.Prelude.{◌≡◌, refl};
    ghost use Rattle.std.proofs.Common.{◌∙◌};

    ghost state = { λ s. source_state s.0 };

    ghost took = { λ s t. t.1 ≡ s.1 };

    ghost took_none = { λ _. refl };

    ghost took_more = { λ _ _ _ first second. second ∙ first };

    fn take(&mut self, buf: &mut [u8]) -> Result<usize, Failed> {
        self.input.take(buf)
    }
}

impl Sink for ByteConn {
    ghost use Rattle.std.specs.Prelude.{◌≡◌, refl};
    ghost use Rattle.std.proofs.Common.{◌∙◌};

    ghost state = { λ s. sink_state s.1 };

    ghost gave = { λ s t. t.0 ≡ s.0 };

    ghost gave_none = { λ _. refl };

    ghost gave_more = { λ _ _ _ first second. second ∙ first };

    fn give(&mut self, bytes: &[u8]) -> Result<usize, SinkFault> {
        self.output.give(bytes)
    }
}

impl Connection for ByteConn {
    ghost use Rattle.std.proofs.Common.{ap};

    ghost taking = { λ x y same. ap sink_state same };

    ghost giving = { λ x y same. ap source_state same };
}
