#![tactic(auto)]
// What the parts, the unit, the builder, the audit, the comparison, CRC-32 and the recordings answer for inputs
// worked out by hand.
mod bills;
mod entries;
mod foreign;
mod images;
mod limits;
mod memories;
mod offsets;
mod pages;
mod pairs;
mod recordings;
mod sessions;
mod tallies;
mod walks;

fn main() {
    pages::show_all();
    memories::show_all();
    walks::show_all();
    tallies::show_all();
    bills::show_all();
    entries::show_all();
    offsets::show_all();
    sessions::show_all();
    images::show_all();
    limits::show_all();
    foreign::show_all();
    pairs::show_all();
    recordings::show_all();
}
