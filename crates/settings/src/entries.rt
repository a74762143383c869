// The entries of a block whose length, edition and count are good.
ghost use Rattle.std.specs.Prelude.{◌≡◌, ◌-◌, ◌≤◌, ◌<◌, length, MatchOption};
ghost use Rattle.settings.specs.Block.{entry_place, number_in, priority_in, edition_in, count_in};
ghost use Rattle.settings.specs.Read.{bad_in, filled};
ghost use Rattle.settings.specs.Edition.{number_of};

use crate::layout::Edition;

#[derive(Clone, Copy)]
pub(crate) struct Entries<'a> {
    pub(crate) block: &'a [u8],
    pub(crate) edition: Edition,
    pub(crate) count: usize,
    ghost whole: { length block.now ≡ 512 },
    ghost of_edition: { number_of edition ≡ edition_in block.now },
    ghost counted: { count ≡ count_in block.now },
    ghost few: { count ≤ 64 },
}

impl<'a> Entries<'a> {
    // The number of entry k.
    pub(crate) fn number(&self, k: usize) -> u16
        requires { k < 64 }
        ensures { result ≡ number_in self.now.block.now k }
    {
        let at = self.edition.entry_place(k);
        u16::from_be_bytes([self.block[at], self.block[at + 1]])
    }

    // Its priority: 0 in edition 1.
    pub(crate) fn priority(&self, k: usize) -> u8
        requires { k < 64 }
        ensures { result ≡ priority_in self.now.block.now k }
    {
        match self.edition {
            Edition::First => 0,
            Edition::Second => self.block[self.edition.entry_place(k) + 2],
        }
    }

    // The first entry with a bad number or priority.
    pub(crate) fn first_bad(&self) -> Option<usize>
        ensures { MatchOption result (self.now.count ≤ bad_in self.now.block.now) (λ k. (k ≡ bad_in self.now.block.now) × (k < self.now.count)) }
    {
        for k in 0..self.count {
            if self.edition.forbids(self.number(k), self.priority(k)) {
                return Some(k);
            }
        }
        None
    }

    // Whether the bytes behind the entries, up to the checksum, are zeros. By place, as the statement tells it: with `all`,
    // which was tried, the goal stayed open.
    pub(crate) fn is_filled(&self) -> bool
        ensures { result ≡ filled self.now.block.now }
    {
        let end = self.edition.entry_place(self.count);
        for at in end..509 {
            if self.block[at] != 0 {
                return false;
            }
        }
        true
    }
}
