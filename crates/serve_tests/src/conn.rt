//! A connection in memory that can wait for a pump.
ghost use Rattle.std.specs.Prelude.{◌≡◌};
ghost use Rattle.raven_ports.specs.Memory.{sink_state, source_state};

use crate::stage::Stage;
use raven_ports::{ByteConn, Connection, Failed, Sink, SinkFault, Source};
use std::process::Abort;

/// A connection in memory.
#[derive(Drop)]
pub struct TestConn<'a, 'r, R: Abort> {
    pub inner: ByteConn,
    pub stage: &'a Stage<'r, R>,

    /// Whether it gives its bytes only once a pump has read a batch, and says when it is answered.
    pub waits: bool,
}

impl<'a, 'r, R: Abort> Source for TestConn<'a, 'r, R> {
    ghost use Rattle.std.specs.Prelude.{◌≡◌, refl};
    ghost use Rattle.std.proofs.Common.{◌∙◌};

    ghost state = { λ s. source_state s.inner.0 };

    ghost took = { λ s t. t.inner.1 ≡ s.inner.1 };

    ghost took_none = { λ _. refl };

    ghost took_more = { λ _ _ _ first second. second ∙ first };

    fn take(&mut self, buf: &mut [u8]) -> Result<usize, Failed> {
        if self.waits {
            self.stage.until_read();
        }
        self.inner.take(buf)
    }
}

impl<'a, 'r, R: Abort> Sink for TestConn<'a, 'r, R> {
    ghost use Rattle.std.specs.Prelude.{◌≡◌, refl};
    ghost use Rattle.std.proofs.Common.{◌∙◌};

    ghost state = { λ s. sink_state s.inner.1 };

    ghost gave = { λ s t. t.inner.0 ≡ s.inner.0 };

    ghost gave_none = { λ _. refl };

    ghost gave_more = { λ _ _ _ first second. second ∙ first };

    fn give(&mut self, bytes: &[u8]) -> Result<usize, SinkFault> {
        let given = self.inner.give(bytes);
        if self.waits {
            self.stage.answered();
        }
        given
    }
}

impl<'a, 'r, R: Abort> Connection for TestConn<'a, 'r, R> {
    ghost use Rattle.std.proofs.Common.{ap};

    ghost taking = { λ x y same. ap sink_state same };

    ghost giving = { λ x y same. ap source_state same };
}
