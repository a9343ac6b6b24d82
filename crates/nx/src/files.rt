// Files: one read whole or opened, and one written whole or not at all.
ghost use Rattle.std.specs.Prelude.{◌≤◌, length, OnOk, IfOk};

use crate::failure::{self, Failure};
use crate::reason;
use crate::text::{Shown, Xml};
use std::fmt::{Display, Formatter, InlineText, Write};
use std::fs::{File, OpenOptions};
use std::io::{self, Error, ErrorKind, Read, Write as _};
use std::random::RandomSource;
use std::{fmt, fs};

// Room for a path, a number and .new.
const NAME: usize = 4160;

// A file's name, as pages and errors give it.
#[derive(Clone, Copy)]
pub struct Name<'a>(pub &'a [u8]);

// A file's name in a picture.
#[derive(Clone, Copy)]
pub struct XmlName<'a>(pub &'a [u8]);

// Whether a path says standard input.
pub(crate) fn is_input(path: &[u8]) -> bool {
    path == b"-".as_slice()
}

impl Display for Name<'_> {
    fn fmt<W: Write>(&self, f: &mut Formatter<W>) -> fmt::Result {
        if is_input(self.0) {
            f.write_str("standard input")
        } else {
            Shown(self.0).fmt(f)
        }
    }
}

impl Display for XmlName<'_> {
    fn fmt<W: Write>(&self, f: &mut Formatter<W>) -> fmt::Result {
        if is_input(self.0) {
            f.write_str("standard input")
        } else {
            Xml(self.0).fmt(f)
        }
    }
}

// Says why a call of the system on a file failed.
fn failed(rt: HostRuntime, path: &[u8], e: Error) -> Failure {
    let name: &[u8] = if is_input(path) {
        b"standard input"
    } else {
        path
    };
    reason::say(rt, name, e);
    Failure::Wrong
}

// Reads until the input ends or the room is full; a failed read is no end.
fn filled<R: Read>(from: &mut R, room: &mut [u8]) -> io::Result<usize>
    ensures { IfOk result (λ n. n ≤ length room.new) }
{
    let mut n = 0;
    for _ in 0..room.len() {
        let got = from.read(&mut room[n..])?;
        if got == 0 {
            break;
        }
        n += got;
        if n == room.len() {
            break;
        }
    }
    Ok(n)
}

// What is read until the input ends or the room is full; a failure is said.
pub(crate) fn read_on<'a, R: Read>(
    rt: HostRuntime,
    from: &mut R,
    path: &[u8],
    room: &'a mut [u8],
) -> Result<&'a [u8], Failure> {
    match filled(from, room) {
        Ok(n) => Ok(&room[..n]),
        Err(e) => Err(failed(rt, path, e)),
    }
}

// A path as std takes it: it has none that is not UTF-8.
fn named(path: &[u8]) -> io::Result<&str> {
    str::from_utf8(path).or(Err(Error::new(
        ErrorKind::InvalidInput,
        "the file's name is not UTF-8",
    )))
}

// A file that is opened for reading; a failure is said.
pub(crate) fn open(rt: HostRuntime, path: &[u8]) -> Result<File, Failure> {
    named(path)
        .and_then(|name| File::open(&rt, name))
        .map_err(|e| failed(rt, path, e))
}

// A file's bytes, at most as many as there is room for.
pub(crate) fn read<'a>(
    rt: HostRuntime,
    path: &[u8],
    room: &'a mut [u8],
) -> Result<&'a [u8], Failure> {
    if is_input(path) {
        return read_on(rt, &mut rt.stdin(), path, room);
    }
    let mut file = open(rt, path)?;
    read_on(rt, &mut file, path, room)
}

// A new file beside a path, whose name it takes once it is whole: the open file, its name and that path.
#[derive(Drop)]
pub struct Fresh<'a> {
    file: File,
    name: InlineText<NAME>,
    path: &'a str,
}

// A number that no two runs share.
fn unique(rt: HostRuntime) -> u32 {
    let mut seed = [0u8; 4];
    let _ = rt.fill_bytes(&mut seed);
    u32::from_le_bytes(seed)
}

// A new file beside a path, opened for writing.
fn created(rt: HostRuntime, path: &[u8]) -> io::Result<Fresh<'_>> {
    let path = named(path)?;
    let name = InlineText::of(format_args!("{path}.{:08X}.new", unique(rt)));
    let file = OpenOptions::new()
        .write(true)
        .create_new(true)
        .open(&rt, name.as_str())?;
    Ok(Fresh { file, name, path })
}

// Says in a path's name that a call of the system on its new file failed, and removes that file.
fn given_up(rt: HostRuntime, name: &str, path: &str, e: Error) -> Failure {
    reason::say(rt, path.as_bytes(), e);
    let _ = fs::remove_file(&rt, name);
    Failure::Wrong
}

impl<'a> Fresh<'a> {
    // A new file beside a path; a failure is said.
    pub fn begin(rt: HostRuntime, path: &'a [u8]) -> Result<Fresh<'a>, Failure> {
        match created(rt, path) {
            Ok(fresh) => Ok(fresh),
            Err(e) => {
                reason::say(rt, path, e);
                Err(Failure::Wrong)
            }
        }
    }

    // Bytes behind those of a new file; where that fails it is said, and the new file is gone.
    pub fn append(&mut self, rt: HostRuntime, bytes: &[u8]) -> Result<(), Failure> {
        match self.file.write_all(bytes) {
            Ok(()) => Ok(()),
            Err(e) => Err(given_up(rt, self.name.as_str(), self.path, e)),
        }
    }

    // Gives a new file that is whole its path's name; a failure is said and leaves what was there.
    pub fn finish(self, rt: HostRuntime) -> Result<(), Failure> {
        let Fresh { file, name, path } = self;
        let synced = file.sync_all();
        drop(file);
        match synced.and_then(|()| fs::rename(&rt, name.as_str(), path)) {
            Ok(()) => Ok(()),
            Err(e) => Err(given_up(rt, name.as_str(), path, e)),
        }
    }
}

// Writes a file whole: to a new one beside it, which then takes its name; a failure leaves what was there.
pub(crate) fn replace(rt: HostRuntime, path: &[u8], bytes: &[u8]) -> Result<(), Failure> {
    let mut fresh = Fresh::begin(rt, path)?;
    fresh.append(rt, bytes)?;
    fresh.finish(rt)
}

// Says that a page could not be written, where it could not, and why, for which the system is asked once more.
pub(crate) fn told(rt: HostRuntime, page: io::Result<()>) -> Result<(), Failure> {
    if page.is_ok() {
        return Ok(());
    }
    match rt.write_all(b"\n") {
        Ok(()) => failure::say(rt, "standard output: a part was not written\n"),
        Err(e) => reason::say(rt, b"standard output", e),
    }
    Err(Failure::Wrong)
}
