// What `prices` and `bill` answer for values worked out by hand from the paper: the file `stdout` has the answers.
// A bill is shown by the last rows of its two sides in hexadecimal, on-chip and external, 400000 where there is none,
// then by whether the total and the misses are the figures that the case gives: 1 for yes, 0 for no.
use bill::{Bill, Seen};
use memory::{Place, Source};
use page::PhysicalAddress;
use prices::{Price, Prices, Side};

pub(crate) fn show_all() {
    figures();
    bills();
    words();
    walks();
    attempts();
    largest();
}

// A price is from 0 to 4,096, ends and minus zero allowed.
fn figures() {
    for (n, x) in [
        (1, 0.0),
        (2, -0.0),
        (3, 4096.0),
        (4, 4096.000000000001),
        (5, -1.0),
        (6, f64::INFINITY),
        (7, f64::NAN),
    ] {
        figure(n, x);
    }
}

// The number of a case, and whether its figure is a price.
fn figure(n: u64, x: f64) {
    show::text(b"price");
    show::number(n);
    show::verdict(prices::figure_ok(x));
}

// A row price above 4,096; then a fresh bill, misses that are no number, and a total that is infinite.
fn bills() {
    show::answer(
        b"row",
        prices::price_ok(Price::Row {
            same: 1.0,
            fresh: 4097.0,
        }),
    );
    money(prices(), Bill::fresh());
    money(prices(), with(0.0, f64::NAN));
    money(prices(), with(f64::INFINITY, 0.0));
}

// Whether prices and a bill are allowed.
fn money(p: Prices, b: Bill) {
    show::answer(b"money", prices::prices_ok(p) & b.ok());
}

// A fresh bill with other figures.
fn with(total: f64, misses: f64) -> Bill {
    Bill {
        total,
        misses,
        ..Bill::fresh()
    }
}

// A row price on chip, a flat one outside.
fn prices() -> Prices {
    Prices {
        onchip: Price::Row {
            same: 1.5,
            fresh: 4.0,
        },
        external: Price::Flat(2.25),
    }
}

// A bill, and the figures that it should have.
fn shown(b: Bill, total: f64, misses: f64) {
    show::text(b"bill");
    show::numbers(row(b.onchip), row(b.external));
    show::numbers((b.total == total) as u64, (b.misses == misses) as u64);
    show::end();
}

// A side's last row, or 400000 where there is none.
fn row(side: Side) -> u64 {
    side.last.map_or(0x400000, |row| row as u64)
}

// A word at an address, held at a place.
fn source(at: u32, place: Place) -> Source {
    Source {
        at: PhysicalAddress(at),
        place,
    }
}

// A bill after a word, and the total that it should have.
fn word(b: Bill, s: Source, p: Prices, total: f64) -> Bill {
    let after = b.post_word(s, p);
    shown(after, total, 0.0);
    after
}

// Words one after another: a new row, the same, a flat price, another row, a word in neither memory, back to the
// first row.
fn words() {
    shown(Bill::fresh(), 0.0, 0.0);
    let a = onchip(onchip(Bill::fresh(), 0x20000400, 4.0), 0x200007FC, 5.5);
    let b = word(a, source(0x10000000, Place::External(0)), prices(), 7.75);
    let c = onchip(b, 0x20000800, 11.75);
    let d = word(c, source(0x20000400, Place::Nowhere), prices(), 11.75);
    dear(onchip(d, 0x20000400, 15.75));
}

// A bill after a word of the on-chip memory, and the total that it should have.
fn onchip(b: Bill, at: u32, total: f64) -> Bill {
    word(b, source(at, Place::OnChip(0)), prices(), total)
}

// A word at other prices, by the row of the word that had a flat price.
fn dear(b: Bill) {
    let p = Prices {
        onchip: Price::Flat(1.0),
        external: Price::Row {
            same: 0.25,
            fresh: 8.0,
        },
    };
    word(b, source(0x100003FC, Place::External(0)), p, 16.0);
}

// The prices of a walk.
fn walking() -> Prices {
    Prices {
        onchip: Price::Flat(0.1),
        external: Price::Row {
            same: 0.5,
            fresh: 0.2,
        },
    }
}

// A fresh bill after a word of a walk.
fn first(s: Source) -> Bill {
    Bill::fresh().post_word(s, walking())
}

// A fresh bill after two words of a walk, and the total that it should have.
fn walk(a: Source, b: Source, total: f64) {
    shown(first(a).post_word(b, walking()), total, 0.0);
}

// The words of a walk in order: 0.1 + 0.2 rounds up, and 0.2 + 0.5 is a tie that goes down to 0.7.
fn walks() {
    shown(Bill::fresh(), 0.0, 0.0);
    let on = source(0x448, Place::OnChip(0));
    shown(first(on), 0.1, 0.0);
    let ext = source(0x448, Place::External(0));
    walk(on, ext, 0.30000000000000004);
    walk(on, ext, 0.3);
    let last = source(0xFFFFFFFC, Place::External(0));
    walk(last, source(0xFFFFFC00, Place::External(0)), 0.7);
}

// A bill after an attempt, and the misses that it should have.
fn seen(b: Bill, s: Seen, misses: f64) -> Bill {
    let after = b.post_seen(s);
    shown(after, 0.0, misses);
    after
}

// A miss, a match, nothing, a miss.
fn attempts() {
    let a = seen(Bill::fresh(), Seen::NoMatch, 0.125);
    let b = seen(a, Seen::Match, 0.109375);
    let c = seen(b, Seen::Nothing, 0.109375);
    seen(c, Seen::NoMatch, 0.220703125);
}

// The largest double and 4,096 more is the largest double again.
fn largest() {
    let b = with(
        179769313486231570814527423731704356798070567525844996598917476803157260780028538760589558632766878171540458953514382464234321326889464182768467546703537516986049910576551282076245490090389328944075868508455133942304583236903222948165808559332123347747971753094124520821580379428014080.0,
        0.0,
    );
    let dear = Prices {
        onchip: Price::Flat(4096.0),
        external: Price::Flat(4096.0),
    };
    money(dear, b);
    let c = word(b, source(0, Place::OnChip(0)), dear, b.total);
    money(dear, c);
}
