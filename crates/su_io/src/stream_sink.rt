//! Standard output: the trusted edge, which tells nothing of content.
ghost use Rattle.std.specs.Prelude.{◌≡◌, None};

use crate::{BufferedSink, Failed, Sink};
use std::io::{Print, Stdout};

/// How many bytes are held before they are handed over.
const LARGE: usize = 1 << 16;

/// Standard output, one write of the system a call.
#[derive(Drop)]
struct Output {
    out: Stdout,
    faults: u64,
}

impl Sink for Output {
    ghost written = { λ s. None };

    ghost handed = { λ s. None };

    ghost over = { λ s. None };

    ghost faults = { λ s. s.faults };

    fn write(&mut self, bytes: &[u8]) -> Result<usize, Failed> {
        match self.out.write_some(bytes) {
            Ok(count) if count > 0 || bytes.is_empty() => Ok(count),
            _ => {
                self.faults = self.faults.saturating_add(1);
                Err(Failed)
            }
        }
    }

    fn flush(&mut self) -> Result<(), Failed> {
        Ok(())
    }

    ghost front = { λ s. tt };
}

/// Standard output, written in large pieces: short ones are held until there are 64 KiB of them, or
/// until `flush`. What is held when the sink is let go is lost.
#[derive(Drop)]
pub struct StreamSink {
    buffer: BufferedSink<Output>,
}

impl StreamSink {
    /// A sink that holds nothing and has counted no fault.
    pub fn new(rt: HostRuntime) -> StreamSink
        ensures { ⟦<StreamSink as Sink>⟧.faults result ≡ 0 }
    {
        let output = Output {
            out: rt.stdout(),
            faults: 0,
        };
        StreamSink {
            buffer: BufferedSink::new(rt.alloc(), output, LARGE),
        }
    }
}

impl Sink for StreamSink {
    ghost written = { λ s. None };

    ghost handed = { λ s. None };

    ghost over = { λ s. None };

    ghost faults = { λ s. ⟦<BufferedSink<Output> as Sink>⟧.faults s.buffer };

    fn write(&mut self, bytes: &[u8]) -> Result<usize, Failed> {
        self.buffer.write(bytes)
    }

    fn flush(&mut self) -> Result<(), Failed> {
        self.buffer.flush()
    }

    ghost front = { λ s. tt };
}
