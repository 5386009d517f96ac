// This file has the writer of standard output, which flushes after each write.

ghost use Rattle.std.specs.Prelude.{◌≡◌};
ghost use Rattle.ptb_text.specs.Device.{DeviceTakes, device_inner, failure_count};
ghost use Rattle.ptb_serve.specs.FlushedDevices.{flushed_device};

use ptb_text::{ByteSink, Device, DeviceFault, Write};

/// Flushes what it writes to at once, so that what a run shows is seen before it waits for input.
///
/// A write whose flush fails has failed, though its bytes may have been taken. That it flushes at
/// all is tested: no contract on bytes can tell it.
#[derive(Drop)]
pub struct FlushingWriter<W> {
    device: Device<W>,
}

impl<W> FlushingWriter<W> {
    /// A writer that flushes `inner` after each write.
    pub fn new(inner: W) -> Self
        ensures inner { device_inner (flushed_device result) ≡ inner }
        ensures unfailed { failure_count (flushed_device result) ≡ 0 }
    {
        FlushingWriter {
            device: Device::new(inner),
        }
    }
}

impl<W: ByteSink> Write for FlushingWriter<W> {
    ghost contents = { λ f. W.contents (device_inner (flushed_device f)) };

    ghost failures = { λ f. failure_count (flushed_device f) };

    ghost takes = { λ f. DeviceTakes W.takes (flushed_device f) };

    fn write(&mut self, bytes: &[u8]) -> Result<usize, DeviceFault> {
        let taken = self.device.write(bytes)?;
        self.device.flush()?;
        Ok(taken)
    }
}
