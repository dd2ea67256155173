// The arrays of a call, on the stack, as long as the longest block needs: in Held a checked block, in Drawn a stage of it.
ghost use Rattle.std.specs.Prelude.{◌≡◌, ◌++◌, ◌+◌, ◌*◌, ◌≤◌, ◌<◌, length, take, drop, IfOk, IfErr};
ghost use Rattle.block.specs.Layout.{limit, entries};
ghost use Rattle.block.specs.Block.{order, lists};
ghost use Rattle.order.specs.Ranked.{RankedBelow};
ghost use Rattle.lamp.specs.Refusals.{number_of, place_of};
ghost use Rattle.lamp.specs.Given.{accepted, refused, reply_of, check_reply};
ghost use Rattle.lamp.specs.Loaded.{Checked};
ghost use Rattle.placing.specs.Stages.{stage};
ghost use Rattle.placing.specs.Records.{record_of, entries_of};
ghost use Rattle.engine.specs.Lent.{board, listed, HasStage};

use block::{Block, Body};
use contour::Contour;
use lamp::{Arrays, Refusal};
use order::{Plan, Run, Runs};
use placing::Record;
use rings::Lists;

const PLACES: usize = Block::LIMIT + 1;

// A block's order, where its lists begin, their entries, the positions by name, and the runs by position.
#[derive(Drop)]
pub struct Held {
    vs: [u16; Block::LIMIT],
    at: [u16; PLACES],
    ents: [u16; Block::ENTRIES],
    rank: [u16; Block::LIMIT],
    runs: [Run; Block::LIMIT],
}

impl Held {
    pub fn new() -> Held
        ensures { (limit ≤ length result.vs) × (limit + 1 ≤ length result.at) × (entries limit ≤ length result.ents)
            × (limit ≤ length result.rank) × (limit ≤ length result.runs) }
    {
        Held {
            vs: [0u16; Block::LIMIT],
            at: [0u16; PLACES],
            ents: [0u16; Block::ENTRIES],
            rank: [0u16; Block::LIMIT],
            runs: [Run { begin: 0, many: 0 }; Block::LIMIT],
        }
    }

    // check; after an acceptance the block is held.
    pub fn check(&mut self, s: &[u8]) -> Result<u16, Refusal>
        ensures reply { reply_of result ≡ check_reply s.now }
        ensures kept { IfOk result (λ n. Checked s.now n self.new.vs self.new.at self.new.ents self.new.rank self.new.runs) }
    {
        let mut ds = [0u16; Block::LIMIT];
        let mut arrays = Arrays {
            vs: &mut self.vs,
            at: &mut self.at,
            ents: &mut self.ents,
        };
        lamp::check_into(s, &mut ds, &mut arrays, &mut self.rank, &mut self.runs)
    }

    // check; the accepted block, which is held. What is kept is told by one word, Checked, here, above and below: a type of its own would have to own
    // the arrays before check has filled them.
    pub fn accept<'a>(&mut self, s: &'a [u8]) -> Result<Body<'a>, Refusal>
        ensures refused { IfErr result (λ r. check_reply s.now ≡ refused (number_of r) (place_of r)) }
        ensures accepted { IfOk result (λ b. (b.bytes.now ≡ s.now) × (check_reply s.now ≡ accepted b.block.n)
            × Checked s.now b.block.n self.new.vs self.new.at self.new.ents self.new.rank self.new.runs) }
    {
        let n = usize::from(self.check(s)?);
        Ok(Body {
            bytes: s,
            block: Block { n },
        })
    }

    // The lists, the order and the runs of the accepted block that is held. The same fronts of arrays as in
    // lamp's Board, which is private: a common function would be a public one, whose contract says again what these two say.
    pub fn runs(&self, b: Body<'_>) -> Runs<'_>
        requires { (check_reply b.bytes.now ≡ accepted b.block.n)
            × Checked b.bytes.now b.block.n self.now.vs self.now.at self.now.ents self.now.rank self.now.runs }
        ensures lists { board result ≡ lists b.entry.bytes.now }
        ensures order { listed result ≡ order b.entry.bytes.now }
    {
        let n = b.block.n;
        let lists = Lists {
            at: &self.at[..n + 1],
            ents: &self.ents[..b.block.entries()],
        };
        let plan = Plan {
            lists,
            vs: &self.vs[..n],
        };
        Runs {
            plan,
            runs: &self.runs,
        }
    }

    // The positions by name.
    pub fn rank(&self) -> &[u16]
        ensures { result.now ≡ self.now.rank }
    {
        &self.rank
    }
}

// A stage's heights, offsets, covers and neighbours on the contour, and its columns, by name: six arrays, since the engine is lent slices.
#[derive(Drop)]
pub struct Drawn {
    ys: [u16; Block::LIMIT],
    off: [u16; Block::LIMIT],
    cover: [u16; Block::LIMIT],
    left: [u16; Block::LIMIT],
    right: [u16; Block::LIMIT],
    xs: [u16; Block::LIMIT],
}

impl Drawn {
    pub fn new() -> Drawn
        ensures { (limit ≤ length result.ys) × (limit ≤ length result.off) × (limit ≤ length result.cover)
            × (limit ≤ length result.left) × (limit ≤ length result.right) × (limit ≤ length result.xs) }
    {
        Drawn {
            ys: [0u16; Block::LIMIT],
            off: [0u16; Block::LIMIT],
            cover: [0u16; Block::LIMIT],
            left: [0u16; Block::LIMIT],
            right: [0u16; Block::LIMIT],
            xs: [0u16; Block::LIMIT],
        }
    }

    // The sheet of stage k. Here and below the five arrays are lent as they stand: a function that answered that loan would have to tell in its
    // contract what comes back of each.
    pub fn sheet(&mut self, runs: Runs<'_>, k: usize, buffer: &mut [u16])
        requires { HasStage runs k × (2 * k ≤ length buffer.old) }
        ensures { buffer.new ≡ entries_of (stage (board runs.entry) (take k (listed runs.entry))) ++ drop (2 * k) buffer.old }
    {
        let mut contour = Contour {
            ys: &mut self.ys,
            off: &mut self.off,
            cover: &mut self.cover,
            left: &mut self.left,
            right: &mut self.right,
        };
        engine::sheet_at(runs, k, &mut contour, &mut self.xs, buffer);
    }

    // The record of post u at stage k.
    pub fn post(&mut self, runs: Runs<'_>, rank: &[u16], k: usize, u: u16) -> Record
        requires { HasStage runs k × (u < length (board runs)) × RankedBelow (length (board runs)) (listed runs) rank.now }
        ensures { result ≡ record_of (board runs.entry) (stage (board runs.entry) (take k (listed runs.entry))) u }
    {
        let mut contour = Contour {
            ys: &mut self.ys,
            off: &mut self.off,
            cover: &mut self.cover,
            left: &mut self.left,
            right: &mut self.right,
        };
        engine::post_at(runs, rank, k, u, &mut contour, &mut self.xs)
    }
}
