// What `meters` answers for values worked out by hand from the paper: the file `stdout` has them, in hexadecimal.
use meters::{Meters, Tally};

pub(crate) fn show_all() {
    counts();
    stops();
    lent();
}

// The three meters: fresh requests, retries, words.
fn show_meters(m: Meters) {
    show::triple(b"meters", m.fresh, m.retries, m.words);
}

// A fresh request that reads two words, then its retry that reads one, then a call that adds nothing.
fn counts() {
    let first = Meters::zero().posted(Tally {
        fresh: 1,
        retries: 0,
        words: 2,
    });
    show_meters(first);
    let second = first.posted(Tally {
        fresh: 0,
        retries: 1,
        words: 1,
    });
    show_meters(second);
    show_meters(second.posted(Tally::zero()));
}

// One below the stop, at it, and far past it.
fn stops() {
    let near = Meters {
        fresh: 4294967294,
        retries: 4294967295,
        words: 4294967294,
    };
    show_meters(near.posted(Tally {
        fresh: 1,
        retries: 1,
        words: 4294967295,
    }));
}

// The posting step where the meters lie, by way of a value.
fn lent() {
    let m = Meters {
        fresh: 15,
        retries: 16,
        words: 255,
    };
    show_meters(meters::after(
        m,
        Tally {
            fresh: 1,
            retries: 0,
            words: 1,
        },
    ));
}
