// Text on a page, byte for byte as specs/ defines it, and the number that a word says.
#![tactic(auto)]

ghost use Rattle.std.specs.Prelude.{◌≡◌, [], ◌∷◌};
ghost use Rattle.text.specs.Letters.{decimal, spaced, numeral, numbered};
ghost use Rattle.text.specs.Said.{said_up_to};
ghost use Rattle.text.specs.Pages.{Writes};

// A lent buffer, filled with text from its start up to `at`. What finds no room in it is left out. Whoever begins a text makes one and answers its
// `at`: a function that did both would take the text as a closure.
#[derive(Drop)]
pub struct Page<'a> {
    pub out: &'a mut [u8],
    pub at: usize,
}

// No `fmt::Write`: what `write!` answers may be an error, as far as its contract says, and this text cannot fail.
impl<'a> Page<'a> {
    // A byte more.
    pub fn put(&mut self, c: u8)
        ensures { Writes self.old (c ∷ []) self.new }
    {
        if self.at < self.out.len() {
            self.out[self.at] = c;
            self.at += 1;
        }
    }

    // These bytes.
    pub fn say(&mut self, t: &[u8])
        ensures { Writes self.old t.now self.new }
    {
        for c in t {
            self.put(*c);
        }
    }

    // A number in decimal.
    pub fn number(&mut self, x: u16)
        ensures { Writes self.old (decimal x) self.new }
    {
        let mut digits = [0u8; 20];
        let k = io::decimal(u64::from(x), &mut digits);
        self.say(&digits[..k]);
    }

    // A space and a number.
    pub fn spaced(&mut self, x: u16)
        ensures { Writes self.old (spaced x) self.new }
    {
        self.put(b' ');
        self.number(x);
    }

    // A letter, or the number for the letter #.
    pub fn numeral(&mut self, c: u8, x: u16)
        ensures { Writes self.old (numeral x c) self.new }
    {
        if c == b'#' {
            self.number(x);
        } else {
            self.put(c);
        }
    }

    // These bytes, with the number in decimal for each #.
    pub fn numbered(&mut self, t: &[u8], x: u16)
        ensures { Writes self.old (numbered x t.now) self.new }
    {
        for c in t {
            self.numeral(*c, x);
        }
    }
}

// The number that a word of decimal digits says, or the most that is asked for if it says more.
pub fn said(word: &[u8], most: u16) -> Option<usize>
    ensures { result ≡ said_up_to most word.now }
{
    if word.is_empty() {
        return None;
    }
    let most = usize::from(most);
    let mut said = 0;
    for c in word {
        // a range, so that both of its ends stand here and can be tried
        if !(b'0'..=b'9').contains(c) {
            return None;
        }
        said = (said * 10 + usize::from(*c - b'0')).min(most);
    }
    Some(said)
}
