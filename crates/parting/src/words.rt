// The words of two images, compared: how many differ, and the first that does.
ghost use Rattle.std.specs.Prelude.{◌≡◌, ◌+◌, ◌-◌, ◌*◌, ◌<◌, ◌≤◌};
ghost use Rattle.parting.specs.Names.{length};
ghost use Rattle.parting.specs.Parting.{differs_at, differing, first_differing};
ghost use Rattle.parting.specs.Spans.{HaveWords, block};

// How many words are compared at a time.
const BLOCK: usize = 64;

// Words that two images both have.
#[derive(Clone, Copy)]
pub(crate) struct Common<'a> {
    pub new: &'a [u8],
    pub signed: &'a [u8],
    pub count: usize,
    ghost held: { HaveWords new.now signed.now count },
}

impl<'a> Common<'a> {
    // Whether word k differs.
    fn differs_at(&self, k: usize) -> bool
        requires { k < self.now.count }
        ensures { result ≡ differs_at self.now.new.now self.now.signed.now k }
    {
        wire::word_of(&self.new[4 * k..4 * k + 4]) != wire::word_of(&self.signed[4 * k..4 * k + 4])
    }

    // How many of n words from word k on differ.
    fn differing_in(&self, k: usize, n: usize) -> u32
        requires { (k + n ≤ self.now.count) × (n ≤ block) }
        ensures { differing self.now.new.now self.now.signed.now (k + n) ≡ differing self.now.new.now self.now.signed.now k + result }
    {
        let mut d: u32 = 0;
        for i in 0..n {
            d += self.differs_at(k + i) as u32;
        }
        d
    }

    // How many of the words from word k on differ.
    pub(crate) fn differing(&self, k: usize) -> usize
        requires { k ≤ self.now.count }
        ensures { differing self.now.new.now self.now.signed.now self.now.count ≡ differing self.now.new.now self.now.signed.now k + result }
    {
        let n = self.count - k;
        let mut d: usize = 0;
        for b in 0..n / BLOCK {
            d += self.differing_in(k + BLOCK * b, BLOCK) as usize;
        }
        d + self.differing_in(k + n / BLOCK * BLOCK, n % BLOCK) as usize
    }

    // The first word from word k on that differs, the number of words where none does.
    fn first_from(&self, k: usize) -> usize
        requires { k ≤ self.now.count }
        ensures { result ≡ first_differing self.now.new.now self.now.signed.now k (self.now.count - k) }
    {
        for j in k..self.count {
            if self.differs_at(j) {
                return j;
            }
        }
        self.count
    }

    // The first word that differs, the number of words where none does.
    pub(crate) fn first_differing(&self) -> usize
        ensures { result ≡ first_differing self.now.new.now self.now.signed.now 0 self.now.count }
    {
        for b in 0..self.count / BLOCK {
            if self.differing_in(BLOCK * b, BLOCK) != 0 {
                return self.first_from(BLOCK * b);
            }
        }
        self.first_from(self.count / BLOCK * BLOCK)
    }
}
