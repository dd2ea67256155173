// Rings: a post's neighbours counter-clockwise, read around; ring rule, triangle rule and outer triangle (steps 9 to 11).
#![tactic(auto)]

ghost use Rattle.std.specs.Prelude.{◌≡◌, not, ◌+◌, ◌-◌, ◌≤◌, ◌<◌, length, get_or, take};
ghost use Rattle.words.specs.First.{first_if};
ghost use Rattle.words.specs.Numbers.{sum_of};
ghost use Rattle.block.specs.Layout.{limit, entries};
ghost use Rattle.block.specs.Block.{degrees, lists};
ghost use Rattle.rings.specs.Rings.{ring, around, next, follows, triangle_rule, outer_rule};
ghost use Rattle.rings.specs.Found.{fault_at, fault_of};
ghost use Rattle.rings.specs.Held.{held, Cuts};

use block::Body;

// What is at fault with a list, by the post whose list it is. One of its entries is no post's name, is the post itself, repeats an entry before it,
// or is a post whose own list does not have this one.
#[derive(Clone, Copy)]
pub enum ListFault {
    High(u16),
    Itself(u16),
    Repeated(u16),
    Unreturned(u16),
}

// A board's neighbour lists: all entries one after the other, and where each list begins among them, at last where the last one ends. Lists of lists
// would want a heap, and the project has fixed memory.
#[derive(Clone, Copy)]
pub struct Lists<'a> {
    pub at: &'a [u16],
    pub ents: &'a [u16],
    pub ghost cuts: { Cuts at.now ents.now },
}

// The entry after place i of a list that is read around.
#[tactic(auto, using(crate::proofs::Turns::after_inside, crate::proofs::Turns::after_end))]
fn after(list: &[u16], i: usize) -> u16
    requires { i < length list.now }
    ensures { result ≡ get_or (around list.now) (i + 1) 0 }
{
    if i + 1 < list.len() {
        return list[i + 1];
    }
    list[0]
}

// In a list that is read around, c follows a. By hand: it is two neighbours that are looked for, the last and the first too, and no method of slices
// goes around.
fn is_next(list: &[u16], a: u16, c: u16) -> bool
    ensures { result ≡ next a c (around list.now) }
{
    let Some(end) = list.last() else {
        return false;
    };
    let mut before = *end;
    for v in list {
        if before == a && *v == c {
            return true;
        }
        before = *v;
    }
    false
}

impl<'a> Lists<'a> {
    ghost use Rattle.rings.specs.Given.{rings_of};

    // The list of u, which is empty if u is no post's name.
    #[tactic(auto, using(crate::proofs::Held::held_none, crate::proofs::Held::held_part))]
    pub fn ring(self, u: u16) -> &'a [u16]
        ensures is { result.now ≡ ring (rings_of self.entry) u }
        ensures short { length result.now < 65536 }
    {
        let w = usize::from(u);
        if self.at.len() <= w + 1 {
            return &[];
        }
        &self.ents[usize::from(self.at[w])..usize::from(self.at[w + 1])]
    }

    // What is at fault with entry i of the list of u.
    fn fault_at(self, u: u16, list: &[u16], i: usize) -> Result<(), ListFault>
        requires { (1 ≤ length self.at.now) × (list.now ≡ ring (rings_of self) u) × (i < length list.now) }
        ensures { result ≡ fault_at (rings_of self.entry) u i }
    {
        let v = list[i];
        if self.at.len() - 1 <= usize::from(v) {
            return Err(ListFault::High(u));
        }
        if v == u {
            return Err(ListFault::Itself(u));
        }
        if list[..i].contains(&v) {
            return Err(ListFault::Repeated(u));
        }
        if !self.ring(v).contains(&u) {
            return Err(ListFault::Unreturned(u));
        }
        Ok(())
    }

    // The fault of the first bad entry in the lowest list that breaks G3. That there are places, and no more than the limit, is asked by what goes over
    // all names alone: the rest serves lists of any number. Their number is narrowed by `as`, here and below, which is proved to lose nothing.
    pub fn first_bad_ring(self) -> Result<(), ListFault>
        requires { (1 ≤ length self.at.now) × (length self.at.now ≤ limit + 1) }
        ensures { result ≡ fault_of (rings_of self.entry) }
    {
        let n = (self.at.len() - 1) as u16;
        // a labelled break ends both loops, and its value is the answer: a rule of the project (docs/DECISIONS.md)
        'names: {
            for u in 0..n {
                let list = self.ring(u);
                for i in 0..list.len() {
                    let f = self.fault_at(u, list, i);
                    if f.is_err() {
                        break 'names f;
                    }
                }
            }
            Ok(())
        }
    }

    // c follows a at v.
    #[tactic(auto, unfolding(crate::specs::Rings::follows))]
    fn is_after(self, v: u16, a: u16, c: u16) -> bool
        ensures { result ≡ follows (rings_of self.entry) v a c }
    {
        is_next(self.ring(v), a, c)
    }

    // The lowest name at which the triangle rule is broken. No one generic function with the rings above: there the answer is the entry's fault, here the
    // name, by two definitions, and a test of an entry handed in as a closure would need a contract of its own.
    pub fn first_bad_triangle(self) -> Option<u16>
        requires { (1 ≤ length self.at.now) × (length self.at.now ≤ limit + 1) }
        ensures { result ≡ first_if 0 (length self.entry.at.now - 1) (λ u. not (triangle_rule (rings_of self.entry) u)) }
    {
        let n = (self.at.len() - 1) as u16;
        // a labelled break ends both loops, and its value is the name: a rule of the project (docs/DECISIONS.md)
        'names: {
            for u in 0..n {
                let list = self.ring(u);
                for (i, v) in list.iter().enumerate() {
                    if !self.is_after(*v, after(list, i), u) {
                        break 'names Some(u);
                    }
                }
            }
            None
        }
    }

    // G6: v1 has v2 in its list, and at v2 the entry after v1 is vn.
    #[tactic(auto, using(crate::proofs::Held::outer_found))]
    pub fn is_outer(self, v1: u16, v2: u16, vn: u16) -> bool
        ensures { result ≡ outer_rule (rings_of self.entry) v1 v2 vn }
    {
        self.ring(v1).contains(&v2) && self.is_after(v2, v1, vn)
    }
}

// at and ents become the block's neighbour lists, with the degrees ds that total 6n-12.
pub fn read_lists(b: Body<'_>, ds: &[u16], at: &mut [u16], ents: &mut [u16])
    requires { (ds.now ≡ degrees b.bytes.now) × (sum_of ds.now ≡ entries b.block.n)
        × (limit < length at.old) × (entries limit ≤ length ents.old) }
    ensures lists { held (take (b.entry.block.n + 1) at.new) (take (entries b.entry.block.n) ents.new) ≡ lists b.entry.bytes.now }
    ensures cuts { Cuts (take (b.entry.block.n + 1) at.new) (take (entries b.entry.block.n) ents.new) }
{
    block::starts(ds, at);
    words::unpack(b.bytes, b.block.lists_at(), &mut ents[..b.block.entries()]);
}
