// The block: its layout from n, and what steps 1 to 8 look at in its header, its order and its degrees.
#![tactic(auto)]

ghost use Rattle.std.specs.Prelude.{◌≡◌, false, ℕ, ◌+◌, ◌*◌, ◌-◌, ◌≤◌, ◌<◌, length, get_or, take};
ghost use Rattle.words.specs.First.{first_if};
ghost use Rattle.words.specs.Numbers.{sum_of};
ghost use Rattle.block.specs.Layout.{limit, bias, degrees_at, lists_at, entries, sum_at, size};
ghost use Rattle.block.specs.Block.{order, degrees, Headed, marked, bad_entry, bad_degree};

// A block's number of posts, which fixes where its parts begin. Its range stays in the contracts and is no invariant: the type is public,
// degrees_at and lists_at answer below 3 too, and who builds a Block would be asked more than before.
#[derive(Clone, Copy)]
pub struct Block {
    pub n: usize,
}

impl Block {
    // n is from 3 to this. It stands here and in specs/Layout.antt alone; everything else follows from it.
    pub const LIMIT: usize = 1000;

    // The most entries that the neighbour lists have together.
    pub const ENTRIES: usize = 6 * Block::LIMIT - 12;

    // The length of the longest block.
    pub const LONGEST: usize = 16 * Block::LIMIT - 15;

    // What is added to an offset between two columns, so that no number below zero is stored.
    pub const BIAS: u16 = 2 * Block::LIMIT as u16;

    // These constants are the definitions' numbers.
    pub fn limits()
        ensures posts { Block.LIMIT ≡ limit }
        ensures most_entries { Block.ENTRIES ≡ entries limit }
        ensures longest { Block.LONGEST ≡ size limit }
        ensures added { Block.BIAS ≡ bias }
    {}

    pub const VERSION_AT: usize = 3;

    pub const POSTS_AT: usize = 5;

    pub const ORDER_AT: usize = 7;

    pub fn degrees_at(self) -> usize
        requires { self.n ≤ limit }
        ensures { result ≡ degrees_at self.n }
    {
        Block::ORDER_AT + 2 * self.n
    }

    pub fn lists_at(self) -> usize
        requires { self.n ≤ limit }
        ensures { result ≡ lists_at self.n }
    {
        Block::ORDER_AT + 4 * self.n
    }

    pub fn entries(self) -> usize
        requires { (3 ≤ self.n) × (self.n ≤ limit) }
        ensures { result ≡ entries self.n }
    {
        6 * self.n - 12
    }

    pub fn sum_at(self) -> usize
        requires { (3 ≤ self.n) × (self.n ≤ limit) }
        ensures { result ≡ sum_at self.n }
    {
        16 * self.n - 17
    }

    pub fn size(self) -> usize
        requires { (3 ≤ self.n) × (self.n ≤ limit) }
        ensures { result ≡ size self.n }
    {
        16 * self.n - 15
    }
}

// The mark PGB stands at the beginning.
#[tactic(auto, using(crate::proofs::Laws::mark_starts))]
pub fn is_marked(s: &[u8]) -> bool
    requires { 7 ≤ length s.now }
    ensures { result ≡ marked s.now }
{
    s.starts_with(b"PGB")
}

// That a list is no longer than the limit is asked here, in order, show and fits, where places in it are narrowed: it is one length in a contract, and
// a type for it would be made anew at each call.
// Positions and names are narrowed by `as`, here and below, which is proved to lose nothing: `try_from` would answer an error that cannot come.
// The first position at fault (N7), if there is one. The names seen so far are marked, a byte for each name, as the paper has it.
pub fn first_bad_entry(vs: &[u16], marks: &mut [u8]) -> Option<u16>
    requires { (length vs.now ≤ length marks.old) × (length vs.now ≤ limit) × ((a : ℕ) → get_or marks.old a 0 ≡ 0) }
    ensures { result ≡ first_if 1 (length vs.now) (bad_entry (length vs.now) vs.now) }
{
    let n = vs.len();
    for (i, v) in vs.iter().enumerate() {
        let a = usize::from(*v);
        if n <= a || marks[a] == 1 {
            return Some(i as u16 + 1);
        }
        marks[a] = 1;
    }
    None
}

// The lowest name whose degree is out of its range (N8), if there is one. `position` was tried: with the narrowing after it the goal of its Some
// (`returns-in-Some`) stayed open; in a function of its own it closes, but that is a second contract for this one loop.
pub fn first_bad_degree(ds: &[u16]) -> Option<u16>
    requires { (1 ≤ length ds.now) × (length ds.now ≤ limit) }
    ensures { result ≡ first_if 0 (length ds.now) (bad_degree (length ds.now) ds.now) }
{
    let n = ds.len();
    for (u, d) in ds.iter().enumerate() {
        if !(2..n).contains(&usize::from(*d)) {
            return Some(u as u16);
        }
    }
    None
}

// The degrees' total.
pub fn total(ds: &[u16]) -> usize
    requires { length ds.now ≤ limit }
    ensures { result ≡ sum_of ds.now }
{
    ds.iter().map(|d| usize::from(*d)).sum()
}

// Where each list begins among all entries, and after the last where it ends. By index: over `at.iter_mut().zip(ds)` the goal `returns` stayed open,
// since of what `iter_mut` has lent a proof knows the length alone afterwards.
#[tactic(auto, using(words::proofs::Numbers::sums))]
pub fn starts(ds: &[u16], at: &mut [u16])
    requires { (length ds.now < length at.old) × (sum_of ds.now ≤ 65535) }
    ensures { (u : ℕ) → u ≤ length ds.now → get_or at.new u 0 ≡ sum_of (take u ds.now) }
{
    let mut t = 0;
    for (u, d) in ds.iter().enumerate() {
        at[u] = t;
        t += *d;
    }
    at[ds.len()] = t;
}

// A block's bytes where its number of posts and its length are right, so that all its parts lie within.
#[derive(Clone, Copy)]
pub struct Body<'a> {
    pub bytes: &'a [u8],
    pub block: Block,
    pub ghost headed: { Headed bytes.now block.n },
}

impl Body<'_> {
    // Step 7: vs becomes the order; the first position at fault, if there is one. Step 8 below has another offset, another test and another
    // definition, and the two lines that they share are calls: one generic function would be no plainer.
    #[tactic(auto, using(words::proofs::Numbers::unpacking), unfolding(crate::specs::Block::order))]
    pub fn read_order(self, vs: &mut [u16]) -> Option<u16>
        requires { limit ≤ length vs.old }
        ensures read { take self.entry.block.n vs.new ≡ order self.entry.bytes.now }
        ensures fault { result ≡ first_if 1 self.entry.block.n (bad_entry self.entry.block.n (order self.entry.bytes.now)) }
    {
        let names = &mut vs[..self.block.n];
        words::unpack(self.bytes, Block::ORDER_AT, names);
        let mut marks = [0; Block::LIMIT];
        first_bad_entry(names, &mut marks)
    }

    // Step 8, the degrees one by one: ds becomes the degrees; the lowest name at fault, if there is one.
    #[tactic(auto, using(words::proofs::Numbers::unpacking), unfolding(crate::specs::Block::degrees))]
    pub fn read_degrees(self, ds: &mut [u16]) -> Option<u16>
        requires { limit ≤ length ds.old }
        ensures read { take self.entry.block.n ds.new ≡ degrees self.entry.bytes.now }
        ensures fault { result ≡ first_if 0 self.entry.block.n (bad_degree self.entry.block.n (degrees self.entry.bytes.now)) }
    {
        let degrees = &mut ds[..self.block.n];
        words::unpack(self.bytes, self.block.degrees_at(), degrees);
        first_bad_degree(degrees)
    }
}
