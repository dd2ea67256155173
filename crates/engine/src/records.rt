// What is told of a stage: the record of a post, and the ends of runs, from what check kept.
ghost use Rattle.std.specs.Prelude.{◌≡◌, ◌++◌, ◌*◌, ◌≤◌, ◌<◌, length, take, drop};
ghost use Rattle.words.specs.Positions.{post};
ghost use Rattle.order.specs.Ranked.{RankedBelow};
ghost use Rattle.placing.specs.Stages.{stage};
ghost use Rattle.placing.specs.Records.{fit_left, fit_right, record_of, ends_of};
ghost use Rattle.contour.specs.Lent.{SameArrays};
ghost use Rattle.engine.specs.Recorded.{standing_by, record_by};
ghost use Rattle.engine.specs.Lent.{board, listed, HasStage, RoomIn, RoomForIn};

use crate::draw;
use contour::Contour;
use order::Runs;
use placing::{Record, Standing};

// The ends of a run, by name.
#[derive(Clone, Copy)]
struct Ends {
    left: u16,
    right: u16,
}

// The ends of the run of the post in position j; the posts in positions 1 and 2 have none, and count as their own.
fn ends_of(runs: Runs<'_>, j: usize) -> Ends
    requires { (1 ≤ j) × (j ≤ length (listed runs)) }
    ensures { (result.left ≡ fit_left (board runs.entry) (listed runs.entry) (post (listed runs.entry) j))
        × (result.right ≡ fit_right (board runs.entry) (listed runs.entry) (post (listed runs.entry) j)) }
{
    if j < 3 {
        let u = runs.plan.vs[j - 1];
        return Ends { left: u, right: u };
    }
    let run = runs.runs[j - 1];
    Ends {
        left: runs.plan.of_run(run, j, 0),
        right: runs.plan.of_run(run, j, usize::from(run.many) - 1),
    }
}

// How a placed post stands, from the arrays of its stage.
fn standing_at(contour: &Contour<'_>, u: u16) -> Standing
    requires { (u < length contour.now.cover.now) × (u < length contour.now.left.now) × (u < length contour.now.right.now) }
    ensures { result ≡ standing_by contour.now.cover.now contour.now.left.now contour.now.right.now u }
{
    let i = usize::from(u);
    let c = contour.cover[i];
    if c == u {
        return Standing::OnContour(contour.left[i], contour.right[i]);
    }
    Standing::Covered(c)
}

// The positions by name are asked for where a record is read, here, in post_at and in unit: whoever keeps a shorter list keeps its own, so they are
// no part of Runs.
// The record of post u, from the arrays of stage k.
fn record_at(
    runs: Runs<'_>,
    rank: &[u16],
    k: usize,
    u: u16,
    contour: &Contour<'_>,
    xs: &[u16],
) -> Record
    requires { HasStage runs k × RankedBelow (length (board runs)) (listed runs) rank.now × (u < length (board runs))
        × RoomForIn u contour.now xs.now }
    ensures { result ≡ record_by (board runs.entry) (listed runs.entry) rank.now k
        xs.now contour.now.ys.now contour.now.cover.now contour.now.left.now contour.now.right.now u }
{
    if !order::is_before(rank, u, k + 1) {
        return Record {
            x: 0,
            y: 0,
            standing: Standing::Waiting,
            leftmost: u,
            rightmost: u,
        };
    }
    let i = usize::from(u);
    let ends = ends_of(runs, usize::from(rank[i]));
    Record {
        x: xs[i],
        y: contour.ys[i],
        standing: standing_at(contour, u),
        leftmost: ends.left,
        rightmost: ends.right,
    }
}

// The record of post u at stage k.
pub fn post_at(
    runs: Runs<'_>,
    rank: &[u16],
    k: usize,
    u: u16,
    contour: &mut Contour<'_>,
    xs: &mut [u16],
) -> Record
    requires { HasStage runs k × RoomIn (length (board runs)) contour.old × (length (board runs) ≤ length xs.old)
        × (u < length (board runs)) × RankedBelow (length (board runs)) (listed runs) rank.now }
    ensures same_arrays { SameArrays contour.old contour.new }
    ensures record { result ≡ record_of (board runs.entry) (stage (board runs.entry) (take k (listed runs.entry))) u }
{
    draw(runs, k, contour, xs);
    record_at(runs, rank, k, u, contour, xs)
}

// The ends of the runs of the posts placed at stage k, two entries for each in its turn; the buffer beyond is as it was. By index, as in
// block::starts: of what an adapter of `iter_mut` has lent, a proof knows the length alone.
pub fn ends_at(runs: Runs<'_>, k: usize, buffer: &mut [u16])
    requires { HasStage runs k × (2 * k ≤ length buffer.old) }
    ensures { buffer.new ≡ ends_of (board runs.entry) (take k (listed runs.entry)) ++ drop (2 * k) buffer.old }
{
    for j in 0..k {
        let ends = ends_of(runs, j + 1);
        buffer[2 * j] = ends.left;
        buffer[2 * j + 1] = ends.right;
    }
}
