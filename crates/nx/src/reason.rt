// Why a call of the system failed, in the system's words.
use std::fmt::InlineText;
use std::io::{Error, Print};

// The most bytes of an error's text.
const ROOM: usize = 256;

// Says that a call of the system failed on what is so named, and why: an error's text up to its number.
pub(crate) fn say(rt: HostRuntime, what: &[u8], e: Error) {
    let text = InlineText::<ROOM>::of(e);
    let (why, _) = text.as_str().split_once('(').unwrap_or((text.as_str(), ""));
    let errors = rt.stderr();
    let _ = errors.write_all(what);
    let _ = errors.print(format_args!(": {}\n", why.trim_matches([' ', '\t'])));
}
