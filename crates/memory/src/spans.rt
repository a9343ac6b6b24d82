// Spans of addresses: which memories may be lent, and where in one four bytes lie.
ghost use Rattle.std.specs.Prelude.{◌≡◌, ◌+◌, ◌≤◌};
ghost use Rattle.memory.specs.Spans.{longest, memory_ok, apart, memories_ok, offset_in};

use crate::LONGEST;

// The addresses of some bytes: the first one, and how many there are.
#[derive(Clone, Copy)]
pub(crate) struct Span {
    pub base: u32,
    pub len: usize,
}

impl Span {
    // Whether a memory there may be lent.
    #[tactic(auto, using(page::proofs::Picks::tests), unfolding(crate::specs::Spans::memory_ok))]
    pub(crate) fn ok(self) -> bool
        ensures { result ≡ memory_ok self.base self.len }
    {
        self.base % 4 == 0
            && self.len % 4 == 0
            && self.len <= LONGEST
            && self.len <= 4294967296 - self.base as usize
    }

    // The address past its last one.
    fn end(self) -> usize
        requires { self.len ≤ longest }
        ensures { result ≡ self.base + self.len }
    {
        self.base as usize + self.len
    }

    // Whether two share no address.
    #[tactic(auto, using(page::proofs::Picks::tests), unfolding(crate::specs::Spans::apart))]
    fn is_apart(self, other: Span) -> bool
        requires { (self.len ≤ longest) × (other.len ≤ longest) }
        ensures { result ≡ apart self.base self.len other.base other.len }
    {
        self.len == 0
            || other.len == 0
            || self.end() <= other.base as usize
            || other.end() <= self.base as usize
    }

    // Whether memories at two may be lent together.
    #[tactic(auto, using(crate::proofs::Apart::spans), unfolding(crate::specs::Spans::memories_ok))]
    pub(crate) fn ok_beside(self, other: Span) -> bool
        ensures { result ≡ memories_ok self.base self.len other.base other.len }
    {
        self.ok() && other.ok() && self.is_apart(other)
    }

    // Where in it the four bytes at an address begin, if they lie there.
    #[tactic(auto, using(page::proofs::Picks::tests), unfolding(crate::specs::Spans::lies_in))]
    pub(crate) fn offset(self, a: u32) -> Option<usize>
        ensures { result ≡ offset_in self.base self.len a }
    {
        let k = a.checked_sub(self.base)? as usize;
        (k + 4 <= self.len).then_some(k)
    }
}
