//! The input of a run.
ghost use Rattle.raven_ports.specs.Memory.{source_state};

use raven_ports::{ByteSource, Failed, Source};

/// Bytes in memory, of which each call gives at most so many, and at least one if there are any.
#[derive(Drop)]
pub struct CaseSource {
    pub bytes: ByteSource,
    pub most: usize,
}

impl Source for CaseSource {
    ghost state = { λ s. source_state s.bytes };

    ghost took = { λ _ _. Unit {0} };

    ghost took_none = { λ _. tt };

    ghost took_more = { λ _ _ _ _ _. tt };

    fn take(&mut self, buf: &mut [u8]) -> Result<usize, Failed> {
        let most = self.most.max(1).min(buf.len());
        self.bytes.take(&mut buf[..most])
    }
}
