//! Makes the line of an entry from the line before.
ghost use Rattle.std.specs.Prelude.{◌≡◌, ◌≢◌, ℕ, ◌+◌, ◌*◌, ◌<◌, ◌≤◌, ◌++◌, [], ◌∷◌, take, decimal};
ghost use Rattle.roman_cert.specs.Certified.{IsTemplate};

use itoa::Buffer;
use roman_text::SHORT;

/// The line of an entry whose reason is one letter, with its newline. The next line mostly differs only
/// in the last two digits of the pair, and only these are then overwritten.
#[derive(Drop)]
pub(crate) struct Template {
    pub(crate) text: [u8; SHORT],
    // the length of the line, with its newline
    pub(crate) len: usize,
    // the place of the last two digits of the pair
    pub(crate) place: usize,
    // the pair, with zeros for these two digits
    pub(crate) base: u32,
    // the letter of the reason
    pub(crate) letter: u8,
}

impl Template {
    /// Returns the template with the line of pair 100 and clause 2.
    #[tactic(auto, using(std::proofs::lemmas::Fmt::decimal_digit))]
    pub(crate) fn new() -> Template
        ensures { IsTemplate result }
    {
        Template {
            text: [
                b'1', b'0', b'0', b' ', b'f', b'\n', 0, 0, 0, 0, 0, 0, 0, 0, 0, 0,
            ],
            len: 6,
            place: 1,
            base: 100,
            letter: b'f',
        }
    }

    /// Makes the line of a pair and a letter. Requires a pair of at least three digits.
    #[inline(always)]
    pub(crate) fn put(&mut self, pair: u32, letter: u8)
        requires template { IsTemplate self.old }
        requires large { 100 ≤ pair }
        ensures template { IsTemplate self.new }
        ensures line { take self.new.len self.new.text ≡ decimal pair ++ 32 ∷ letter ∷ 10 ∷ [] }
        ensures short { self.new.len ≤ 16 }
    {
        if letter != self.letter || pair.wrapping_sub(self.base) >= 100 {
            self.renew(pair / 100, letter);
        }
        self.put_digits(pair - self.base);
    }

    /// Sets the last two digits of the pair.
    #[inline(always)]
    #[tactic(auto, using(crate::proofs::Templating::line_of_two))]
    fn put_digits(&mut self, two: u32)
        requires template { IsTemplate self.old }
        requires two { two < 100 }
        ensures template { IsTemplate self.new }
        ensures line { take self.new.len self.new.text
            ≡ decimal (self.old.base + two) ++ 32 ∷ self.old.letter ∷ 10 ∷ [] }
    {
        let place = self.place;
        self.text[place] = b'0' + (two / 10) as u8;
        self.text[place + 1] = b'0' + (two % 10) as u8;
    }

    /// Makes the line anew for a pair that begins with the digits of `high`, and for a letter. Leaves
    /// the last two digits of the pair to be set.
    #[inline(never)]
    fn renew(&mut self, high: u32, letter: u8)
        requires some { 0 < high }
        requires few { high ≤ 42_949_672 }
        ensures template { IsTemplate self.new }
        ensures base { self.new.base ≡ high * 100 }
        ensures letter { self.new.letter ≡ letter }
    {
        let mut buffer = Buffer::new();
        let digits = buffer.format(high).as_bytes();
        let place = digits.len();
        self.text[..place].copy_from_slice(digits);
        self.text[place + 2] = b' ';
        self.text[place + 3] = letter;
        self.text[place + 4] = b'\n';
        self.len = place + 5;
        self.place = place;
        self.base = high * 100;
        self.letter = letter;
    }
}
