// The groups of rows over loaded lists: rings, triangles, the outer triangle, and the rule per position.
ghost use Rattle.std.specs.Prelude.{◌≡◌, ◌+◌, ◌≤◌, length, OnOk};
ghost use Rattle.block.specs.Block.{order, lists};
ghost use Rattle.order.specs.Ranked.{Ranked, RunsBefore};
ghost use Rattle.lamp.specs.Lamp.{ring_rows, triangle_rows, outer_rows, position_rows};
ghost use Rattle.lamp.specs.Given.{reply_of, given, tried};
ghost use Rattle.lamp.specs.Loaded.{refusal_for, run_here, board_rows, rows_from, Wide, Loaded, Trimmed, Ringed};

use crate::Refusal;
use block::Body;
use order::{Misfit, Plan, Run};
use rings::{ListFault, Lists};

impl From<ListFault> for Refusal {
    ghost from_gives = { λ f r. r ≡ refusal_for f };

    fn from(f: ListFault) -> Refusal {
        match f {
            ListFault::High(u) => Refusal::High(u),
            ListFault::Itself(u) => Refusal::Itself(u),
            ListFault::Repeated(u) => Refusal::Repeated(u),
            ListFault::Unreturned(u) => Refusal::Unreturned(u),
        }
    }
}

// A block's bytes, and its lists and its order in arrays that are just so long.
#[derive(Clone, Copy)]
pub struct Board<'a> {
    pub s: &'a [u8],
    pub plan: Plan<'a>,
    pub ghost trimmed: { Trimmed s.now plan.vs.now plan.lists.at.now plan.lists.ents.now },
}

impl<'a> Board<'a> {
    // The fronts of longer arrays that hold the block's order and lists.
    pub fn held(b: Body<'a>, vs: &'a [u16], at: &'a [u16], ents: &'a [u16]) -> Board<'a>
        requires { Wide vs.now at.now ents.now × Loaded b.bytes.now b.block.n vs.now at.now ents.now }
        ensures { result.s.now ≡ b.entry.bytes.now }
    {
        let n = b.block.n;
        let lists = Lists {
            at: &at[..n + 1],
            ents: &ents[..b.block.entries()],
        };
        let plan = Plan {
            lists,
            vs: &vs[..n],
        };
        Board { s: b.bytes, plan }
    }

    // The ring rule, by which fault it is that a list has.
    fn rings(self) -> Result<(), Refusal>
        ensures { reply_of result ≡ tried ring_rows self.entry.s.now }
    {
        self.plan.lists.first_bad_ring()?;
        Ok(())
    }

    // The triangle rule.
    fn triangles(self) -> Result<(), Refusal>
        ensures { reply_of result ≡ tried triangle_rows self.entry.s.now }
    {
        match self.plan.lists.first_bad_triangle() {
            Some(u) => Err(Refusal::Triangle(u)),
            None => Ok(()),
        }
    }

    // The outer triangle.
    fn outer(self) -> Result<(), Refusal>
        ensures { reply_of result ≡ tried outer_rows self.entry.s.now }
    {
        let vs = self.plan.vs;
        if !self.plan.lists.is_outer(vs[0], vs[1], vs[vs.len() - 1]) {
            return Err(Refusal::Outer);
        }
        Ok(())
    }

    // Rings, triangles and the outer triangle.
    pub fn sound(self) -> Result<(), Refusal>
        ensures { reply_of result ≡ tried board_rows self.entry.s.now }
    {
        self.rings()?;
        self.triangles()?;
        self.outer()
    }

    // The rule at position k; the run that is found there is answered where no row applies. A misfit becomes a refusal here and by no `From`, which
    // would not know the position; k is narrowed by `as`, which is proved to lose nothing.
    fn position(self, rank: &[u16], k: usize) -> Result<Run, Refusal>
        requires { Ranked self.plan.vs.now rank.now × Ringed self.s.now × (1 ≤ k) × (k ≤ length self.plan.vs.now) }
        ensures { reply_of result ≡ given (position_rows k) self.entry.s.now (run_here k) }
    {
        match self.plan.rule_at(rank, k) {
            Ok(run) => Ok(run),
            Err(Misfit::Few) => Err(Refusal::Few(k as u16)),
            Err(Misfit::Broken) => Err(Refusal::Broken(k as u16)),
        }
    }

    // The rule per position, at positions 3 to n in turn. Where it holds at all of them, the run of each is kept.
    // `3..=n` was tried: it leaves the loop from within too, and the goals of that exit (`returns-in_ok-runs-..`) stayed open.
    pub fn fitting(self, rank: &[u16], runs: &mut [Run]) -> Result<(), Refusal>
        requires { Ranked self.plan.vs.now rank.now × Ringed self.s.now × (length self.plan.vs.now ≤ length runs.old) }
        ensures reply { reply_of result ≡ tried (rows_from 3 (length self.entry.plan.vs.now)) self.entry.s.now }
        ensures kept { OnOk result (RunsBefore (lists self.entry.s.now) (order self.entry.s.now) runs.new (length self.entry.plan.vs.now + 1)) }
    {
        for k in 3..self.plan.vs.len() + 1 {
            runs[k - 1] = self.position(rank, k)?;
        }
        Ok(())
    }
}
