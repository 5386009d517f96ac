// This file tests the writer that flushes, over one whose flush fails at a call.

use crate::tests::shared::expect_same;
use ptb_serve::FlushingWriter;
use ptb_text::{ByteSink, DeviceFault, Write};
use std::io;
use std::io::ErrorKind;

// Takes all bytes, and fails at a flush.
#[derive(Drop)]
struct Tank {
    taken: Vec<u8>,
    flushes_left: usize,
}

impl ByteSink for &mut Tank {
    fn write(&mut self, buf: &[u8]) -> io::Result<usize> {
        self.taken.extend_from_slice(buf)?;
        Ok(buf.len())
    }

    fn flush(&mut self) -> io::Result<()> {
        if self.flushes_left == 0 {
            return Err(io::Error::from(ErrorKind::BrokenPipe));
        }
        self.flushes_left -= 1;
        Ok(())
    }
}

#[test]
fn each_write_is_flushed(rt: HostRuntime) {
    let mut tank = Tank {
        taken: Vec::new(rt.alloc()),
        flushes_left: 2,
    };
    let mut out = FlushingWriter::new(&mut tank);
    let found = (
        out.write_all(b"one"),
        out.write_all(b"two"),
        out.write_all(b"three"),
    );
    expect_same(
        &rt,
        "writes",
        found,
        (Ok(()), Ok(()), Err(DeviceFault::Write)),
    );
    expect_same(&rt, "taken", tank.taken.as_slice(), b"onetwothree");
}
