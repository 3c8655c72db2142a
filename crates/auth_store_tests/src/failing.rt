//! A reader and a writer that fail.

use auth_store::script::run::{IO_FAILED, run_script};
use std::io;
use std::io::{ErrorKind, Read, Write};

/// A writer whose write fails that would pass so many bytes.
#[derive(Drop)]
struct Short {
    left: usize,
}

impl Write for Short {
    fn write(&mut self, buf: &[u8]) -> io::Result<usize> {
        if buf.len() > self.left {
            return Err(io::Error::from(ErrorKind::Other));
        }
        self.left -= buf.len();
        Ok(buf.len())
    }

    fn flush(&mut self) -> io::Result<()> {
        Ok(())
    }
}

/// A reader that always fails.
#[derive(Drop)]
struct Broken;

impl Read for Broken {
    fn read(&mut self, _buf: &mut [u8]) -> io::Result<usize> {
        Err(io::Error::from(ErrorKind::Other))
    }
}

// At the second line that is printed, and at the line that says that a line is bad.
#[test]
fn a_failed_write_ends_the_run(rt: HostRuntime) {
    for script in ["new mmr 0\nopen\n", "new mmr 0\nhop\n"] {
        let mut reader = script.as_bytes();
        let mut out = Short { left: 4 };
        let status = run_script(rt.alloc(), &mut reader, &mut out).status;
        assert_eq!(rt; status, IO_FAILED);
    }
}

#[test]
fn a_failed_read_ends_the_run(rt: HostRuntime) {
    let mut out = Vec::new(rt.alloc());
    let status = run_script(rt.alloc(), &mut Broken, &mut out).status;
    assert_eq!(rt; status, IO_FAILED);
    assert!(rt; out.is_empty());
}
