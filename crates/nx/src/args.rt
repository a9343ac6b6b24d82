// The program's arguments.
ghost use Rattle.std.specs.Prelude.{◌≤◌, length};

use crate::failure::{self, Failure};
use std::env::{Env, FillError};

// An argument, put at the start of a room; empty where there is none or it has no room.
pub(crate) fn arg<'a>(rt: HostRuntime, i: usize, room: &'a mut [u8]) -> &'a [u8] {
    match rt.arg(i, room) {
        Ok(n) => &room[..n],
        Err(_) => &[],
    }
}

// How many arguments there are, the program's name among them.
pub(crate) fn count(rt: HostRuntime) -> usize {
    let mut room = [0u8; 1];
    for n in 0..usize::MAX {
        if let Err(FillError::NotPresent) = rt.arg(n, &mut room) {
            return n;
        }
    }
    usize::MAX
}

// Tests that all arguments are such that a buffer for a path can hold them.
pub(crate) fn test(rt: HostRuntime) -> Result<(), Failure> {
    let mut room = io::buffer();
    for i in 1..count(rt) {
        if rt.arg(i, &mut room).is_err() {
            failure::say(rt, "nx: an argument is longer than a path may be\n");
            return Err(Failure::Misuse);
        }
    }
    Ok(())
}
