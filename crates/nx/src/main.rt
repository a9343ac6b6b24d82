#![tactic(auto)]
// nx: lists of mappings as text, their tables, sessions on the model, recorded and replayed, images from
// elsewhere, and two images compared, for people.
mod args;
mod boxes;
mod build;
mod changes;
mod cli;
mod columns;
mod convert;
mod costs;
mod diff;
mod failure;
mod files;
mod grid;
mod image;
mod labels;
mod list;
mod map;
mod mappings;
mod options;
mod output;
mod pages;
mod parse;
mod playback;
mod reason;
mod record;
mod recordings;
mod refusal;
mod script;
mod scripts;
mod second;
mod show;
mod spelling;
mod text;
mod trial;

// Where the program's last act, one digit, goes: a program has no exit status of its own.
const STATUS: i32 = 3;

fn main(rt: HostRuntime) {
    io::print_decimal(STATUS, cli::run(rt));
}
