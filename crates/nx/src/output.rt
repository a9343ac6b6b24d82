// Standard output behind a room: what is put there gathers until it is written.
use std::fmt;
use std::fmt::{Display, Formatter, Write};
use std::io::{Error, Result};

// The bytes of a room.
pub const SIZE: usize = 65536;

// What has gathered, and why a part of what went before was not written, where one was not: what comes behind
// such a part is written all the same.
#[derive(Drop)]
pub struct Output {
    rt: HostRuntime,
    bytes: [u8; SIZE],
    len: usize,
    failed: Option<Error>,
    by_line: bool,
}

impl Output {
    // An empty room, that is written where it is full, or by line.
    fn empty(rt: HostRuntime, by_line: bool) -> Output {
        Output {
            rt,
            bytes: io::large_buffer(),
            len: 0,
            failed: None,
            by_line,
        }
    }

    // An empty room.
    pub fn new(rt: HostRuntime) -> Output {
        Output::empty(rt, false)
    }

    // Writes what has gathered.
    fn write_out(&mut self) {
        let gathered = self.bytes.get(..self.len).unwrap_or(b"");
        let written = self.rt.write_all(gathered);
        self.len = 0;
        if let Err(e) = written {
            self.failed = Some(e);
        }
    }

    // Writes what has gathered where that is more than so many bytes.
    pub fn write_past(&mut self, most: usize) {
        if self.len > most {
            self.write_out();
        }
    }

    // Gathers a byte.
    fn push(&mut self, b: u8) {
        if self.len >= SIZE {
            self.write_out();
        }
        let len = self.len;
        if len < SIZE {
            self.bytes[len] = b;
            self.len = len + 1;
        }
        if self.by_line && b == b'\n' {
            self.write_out();
        }
    }

    // Gathers what a value is shown as.
    pub fn put<D: Display + Drop>(&mut self, what: D) {
        let _ = Formatter::new(&mut *self).write(what);
    }

    // Writes the rest; whether all was written since the last time.
    pub fn flush(&mut self) -> Result<()> {
        self.write_past(0);
        match self.failed.take() {
            None => Ok(()),
            Some(e) => Err(e),
        }
    }
}

impl Write for Output {
    fn write_str(&mut self, s: &str) -> fmt::Result {
        for b in s.as_bytes().iter() {
            self.push(*b);
        }
        Ok(())
    }
}

// Writes a page, as often as the room is full.
pub(crate) fn print<D: Display + Drop>(rt: HostRuntime, page: D) -> Result<()> {
    let mut out = Output::new(rt);
    out.put(page);
    out.flush()
}

// Writes a page line by line.
pub(crate) fn print_lines<D: Display + Drop>(rt: HostRuntime, page: D) -> Result<()> {
    let mut out = Output::empty(rt, true);
    out.put(page);
    out.flush()
}
