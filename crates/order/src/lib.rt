// The order of fitting: the position of each name, the rule at each position (steps 12 and 13), and the run that it finds there.
#![tactic(auto)]

ghost use Rattle.std.specs.Prelude.{◌≡◌, false, ℕ, ◌≤◌, ◌<◌, ◌==◌, ltb, length, get_or, position};
ghost use Rattle.words.specs.Lists.{count};
ghost use Rattle.words.specs.Positions.{post, earlier};
ghost use Rattle.block.specs.Layout.{limit};
ghost use Rattle.block.specs.Block.{bad_entry};
ghost use Rattle.rings.specs.Given.{rings_of};
ghost use Rattle.order.specs.Order.{run};
ghost use Rattle.order.specs.Opens.{before, openings, last_opening};
ghost use Rattle.order.specs.Fitted.{Fitted, RunsHeld, RunKept};
ghost use Rattle.order.specs.Ranked.{NamesBelow, Ranked, Listed, fit_of};

use rings::Lists;

// One run of earlier neighbours: the place in the post's ring where it begins, counted from 0, and how many they are.
#[derive(Clone, Copy)]
pub struct Run {
    pub begin: u16,
    pub many: u16,
}

// Why a post does not fit: it has fewer than two earlier neighbours; or they aren't one run.
#[derive(Clone, Copy)]
pub enum Misfit {
    Few,
    Broken,
}

// Rings, and a list of posts.
#[derive(Clone, Copy)]
pub struct Plan<'a> {
    pub lists: Lists<'a>,
    pub vs: &'a [u16],
}

// A list of posts that fits so far, and the run of each from the third on, by position.
#[derive(Clone, Copy)]
pub struct Runs<'a> {
    pub plan: Plan<'a>,
    pub runs: &'a [Run],
    pub ghost fitted: { ∥ Fitted plan.lists.at.now plan.lists.ents.now plan.vs.now ∥₁ },
    pub ghost kept: { ∥ RunsHeld plan.lists.at.now plan.lists.ents.now plan.vs.now runs.now ∥₁ },
}

// rank[a] becomes the position of the name a, narrowed by `as`, here and below, which is proved to lose nothing.
pub fn ranks(vs: &[u16], rank: &mut [u16])
    requires { (length vs.now ≤ limit) × (length vs.now ≤ length rank.old)
        × ((k : ℕ) → 1 ≤ k → k ≤ length vs.now → bad_entry (length vs.now) vs.now k ≡ false) }
    ensures { Ranked vs.now rank.new }
{
    for (i, v) in vs.iter().enumerate() {
        rank[usize::from(*v)] = (i + 1) as u16;
    }
}

// a stands in a position before k.
pub fn is_before(rank: &[u16], a: u16, k: usize) -> bool
    requires { a < length rank.now }
    ensures { result ≡ ltb (get_or rank.now a 0) k }
{
    usize::from(rank[usize::from(a)]) < k
}

// What a pass over a ring finds: how many entries stand in positions before k, how many runs of them begin, and where the last of these begins.
// `begin` is 0 if no run begins. An Option would be no plainer: `runs` has to be counted, and says whether there is one.
#[derive(Clone, Copy)]
struct Seen {
    many: usize,
    runs: usize,
    begin: usize,
}

// The pass over a ring.
fn pass_over(ring: &[u16], rank: &[u16], k: usize) -> Seen
    requires { NamesBelow ring.now (length rank.now) }
    ensures { (result.many ≡ count (before rank.now k) ring.now)
        × (result.runs ≡ openings (before rank.now k) ring.now)
        × (result.begin ≡ last_opening (before rank.now k) ring.now) }
{
    let mut many = 0;
    let mut runs = 0;
    let mut begin = 0;
    let mut last = match ring.last() {
        Some(v) => is_before(rank, *v, k),
        None => false,
    };
    for (i, v) in ring.iter().enumerate() {
        let here = is_before(rank, *v, k);
        let opening = !last & here;
        last = here;
        many += usize::from(here);
        runs += usize::from(opening);
        if opening {
            begin = i;
        }
    }
    Seen { many, runs, begin }
}

// The place of a in a list.
fn place_of(list: &[u16], a: u16) -> Option<usize>
    ensures { result ≡ position (λ x. x == a) list.now }
{
    list.iter().position(|x| *x == a)
}

impl<'a> Plan<'a> {
    // What the order's rule finds in position k: the only place where a run is looked for.
    pub fn rule_at(self, rank: &[u16], k: usize) -> Result<Run, Misfit>
        requires { Listed (rings_of self.lists) self.vs.now rank.now × (1 ≤ k) × (k ≤ length self.vs.now)
            × (post self.vs.now k < length (rings_of self.lists)) }
        ensures { result ≡ fit_of (rings_of self.entry.lists) (earlier self.entry.vs.now k) (post self.entry.vs.now k) }
    {
        let ring = self.lists.ring(self.vs[k - 1]);
        let found = pass_over(ring, rank, k);
        if found.many < 2 {
            return Err(Misfit::Few);
        }
        if 1 < found.runs {
            return Err(Misfit::Broken);
        }
        // beyond the list where v1 isn't in it, as the definition of a run's begin has it
        let begin = if found.runs == 1 {
            found.begin
        } else {
            place_of(ring, self.vs[0]).unwrap_or(ring.len())
        };
        Ok(Run {
            begin: begin as u16,
            many: found.many as u16,
        })
    }

    // Post i, counted from 0, of this run of the post in position k: its ring is read around from where the run begins.
    pub fn of_run(self, found: Run, k: usize, i: usize) -> u16
        requires { RunKept (rings_of self.lists) self.vs.now found.begin k i }
        ensures { result ≡ get_or (run (rings_of self.entry.lists) (earlier self.entry.vs.now k) (post self.entry.vs.now k)) i 0 }
    {
        let ring = self.lists.ring(self.vs[k - 1]);
        let p = usize::from(found.begin) + i;
        if p < ring.len() {
            return ring[p];
        }
        ring[p - ring.len()]
    }
}
