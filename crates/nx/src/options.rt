// The words of nx replay behind its recording: each memory's file and base, and its price, each at most once
// and in any order.
use crate::failure::{self, Failure};
use crate::script::{self, Memory, Wrong};
use crate::text::Shown;
use crate::{args, build, files};
use page::PhysicalAddress;
use prices::{Price, Prices};
use std::fmt;
use std::fmt::{Display, Formatter, Write};

// Where the first of these words stands.
const FIRST: usize = 3;

// The words that lend a memory: its name, its file, its base.
const LENT: usize = 3;

// The least words of a price.
const PRICE: usize = 4;

// A memory's file, by the place of the word that names it, and its base.
#[derive(Clone, Copy)]
pub struct Lent {
    file: usize,
    base: u32,
}

// What is said of a memory: what is lent of it, and its price.
#[derive(Clone, Copy)]
pub struct Said {
    pub lent: Option<Lent>,
    pub price: Option<Price>,
}

// What the words say of both memories.
#[derive(Clone, Copy)]
pub struct Options {
    pub onchip: Said,
    pub external: Said,
}

// A group of words by its first ones, as an error names it.
#[derive(Clone, Copy)]
struct Group<'a>(&'a str, &'a [u8]);

impl Display for Group<'_> {
    fn fmt<W: Write>(&self, f: &mut Formatter<W>) -> fmt::Result {
        let Group(first, word) = *self;
        let between = if first.is_empty() || word.is_empty() {
            ""
        } else {
            " "
        };
        write!(f, "nx: {first}{between}{}: ", Shown(word))
    }
}

// Says what is wrong with a group, in a line's words.
fn wrong(rt: HostRuntime, group: Group, why: Wrong) -> Failure {
    failure::say(rt, format_args!("{group}{why}\n"));
    Failure::Misuse
}

// Says that a group is given twice.
fn twice(rt: HostRuntime, group: Group) -> Failure {
    failure::say(rt, format_args!("{group}given twice\n"));
    Failure::Misuse
}

impl Said {
    // A memory of which nothing is said.
    fn nothing() -> Said {
        Said {
            lent: None,
            price: None,
        }
    }

    // A memory's bytes and base, read into a room; none at 0 where it is not lent.
    pub fn read<'a>(
        self,
        rt: HostRuntime,
        room: &'a mut [u8],
    ) -> Result<(&'a [u8], PhysicalAddress), Failure> {
        let Some(Lent { file, base }) = self.lent else {
            return Ok((b"", PhysicalAddress(0)))
        };
        let mut word = io::buffer();
        let bytes = files::read(rt, args::arg(rt, file, &mut word), room)?;
        Ok((bytes, PhysicalAddress(base)))
    }

    // Whether a memory is standard input.
    fn is_input(self, rt: HostRuntime) -> bool {
        let mut word = io::buffer();
        self.lent
            .is_some_and(|l| files::is_input(args::arg(rt, l.file, &mut word)))
    }
}

impl Options {
    // What is said of a memory.
    fn of(&mut self, memory: Memory) -> &mut Said {
        match memory {
            Memory::OnChip => &mut self.onchip,
            Memory::External => &mut self.external,
        }
    }

    // A memory lent: the words from a place on, of which so many are left.
    fn lend(
        &mut self,
        rt: HostRuntime,
        memory: Memory,
        name: &[u8],
        at: usize,
        left: usize,
    ) -> Result<usize, Failure> {
        let group = Group("", name);
        let said = self.of(memory);
        if said.lent.is_some() {
            return Err(twice(rt, group));
        }
        if left < LENT {
            return Err(wrong(rt, group, Wrong::Missing));
        }
        let mut word = io::buffer();
        let base = build::base_of(rt, args::arg(rt, at.saturating_add(2), &mut word))?;
        said.lent = Some(Lent {
            file: at.saturating_add(1),
            base,
        });
        Ok(LENT)
    }

    // A price, as a script's line would say it: the words from a place on, of which so many are left.
    fn price(&mut self, rt: HostRuntime, at: usize, left: usize) -> Result<usize, Failure> {
        let mut a = io::buffer();
        let mut b = io::buffer();
        let mut c = io::buffer();
        let mut d = io::buffer();
        let name = args::arg(rt, at.saturating_add(1), &mut a);
        let form = args::arg(rt, at.saturating_add(2), &mut b);
        let first = args::arg(rt, at.saturating_add(3), &mut c);
        let second = args::arg(rt, at.saturating_add(4), &mut d);
        let group = Group("price", name);
        let words = script::price_words(form).unwrap_or(0);
        if left < PRICE.max(words) {
            return Err(wrong(rt, group, Wrong::Missing));
        }
        match script::price_of(name, form, first, second) {
            Ok((memory, price)) => {
                let said = self.of(memory);
                if said.price.is_some() {
                    return Err(twice(rt, group));
                }
                said.price = Some(price);
                Ok(words)
            }
            Err(why) => Err(wrong(rt, group, why)),
        }
    }

    // A group: the words from a place on, of which so many are left; how many words it has.
    fn group(&mut self, rt: HostRuntime, at: usize, left: usize) -> Result<usize, Failure> {
        let mut word = io::buffer();
        let first = args::arg(rt, at, &mut word);
        if first == b"price".as_slice() {
            return self.price(rt, at, left);
        }
        match script::memory_named(first) {
            Some(memory) => self.lend(rt, memory, first, at, left),
            None => {
                let group = Group("", first);
                failure::say(
                    rt,
                    format_args!("{group}unknown word (on-chip, external or price)\n"),
                );
                Err(Failure::Misuse)
            }
        }
    }

    // What all the words say.
    pub fn asked(rt: HostRuntime) -> Result<Options, Failure> {
        let mut options = Options {
            onchip: Said::nothing(),
            external: Said::nothing(),
        };
        let n = args::count(rt);
        let mut next = FIRST;
        for at in FIRST..n {
            if at == next {
                let words = options.group(rt, at, n - at)?;
                next = at.saturating_add(words);
            }
        }
        Ok(options)
    }

    // Tests that not both memories are standard input.
    pub fn test_inputs(self, rt: HostRuntime) -> Result<(), Failure> {
        if self.onchip.is_input(rt) && self.external.is_input(rt) {
            failure::say(
                rt,
                "nx: only one of the two memories can be standard input\n",
            );
            return Err(Failure::Misuse);
        }
        Ok(())
    }

    // The prices that the words say, nothing where they say none.
    pub fn prices(self) -> Prices {
        Prices {
            onchip: self.onchip.price.unwrap_or(Price::Flat(0.0)),
            external: self.external.price.unwrap_or(Price::Flat(0.0)),
        }
    }
}
