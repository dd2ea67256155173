// Numbers in bytes: 16-bit, high byte first, and the wrapped sum. specs/ defines them, and lists of names, and "the first one that".
#![tactic(auto)]

ghost use Rattle.std.specs.Prelude.{◌≡◌, ◌+◌, ◌*◌, ◌<◌, ◌≤◌, length, take};
ghost use Rattle.words.specs.Numbers.{word_at, words_at, wrapped};

// The 16-bit number whose high byte stands at i.
pub fn word(s: &[u8], i: usize) -> u16
    requires { i + 1 < length s.now }
    ensures { result ≡ word_at s.now i }
{
    u16::from_be_bytes([s[i], s[i + 1]])
}

// The sum of the bytes, wrapped at 65,536. It runs in 16 bits, by an add that wraps, as the paper has it.
#[tactic(auto, using(crate::proofs::Numbers::sums))]
pub fn sum(s: &[u8]) -> u16
    ensures { result ≡ wrapped s.now }
{
    let mut sum: u16 = 0;
    for b in s {
        sum = sum.wrapping_add(u16::from(*b));
    }
    sum
}

// `out` becomes the 16-bit numbers from byte i on.
#[tactic(auto, using(crate::proofs::Numbers::unpacking))]
pub fn unpack(s: &[u8], i: usize, out: &mut [u16])
    requires { i + 2 * length out.old ≤ length s.now }
    ensures { out.new ≡ words_at s.now i (length out.old) }
{
    for (k, x) in out.iter_mut().enumerate() {
        *x = word(s, i + 2 * k);
    }
}
