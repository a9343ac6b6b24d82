// How the program ends where not all is fine.
use std::fmt::Display;

// What the program answers; what was wrong has been said.
#[derive(Clone, Copy)]
pub enum Failure {
    // A list, a script, a recording, an image or a file is wrong, or two images differ.
    Wrong = 1,
    // The program is used wrongly.
    Misuse = 2,
}

// Says what is wrong on standard error: where that cannot be written, nothing can be said.
pub(crate) fn say<D: Display + Drop>(rt: HostRuntime, what: D) {
    let _ = rt.eprint(what);
}
