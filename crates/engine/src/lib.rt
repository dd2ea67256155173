// Reaching a stage of a list of posts that fits so far, in linear time: differences are kept, and no post is moved.
#![tactic(auto)]

// A stage is a list with its runs and a number k within it, which each contract says by one word, HasStage: a struct of the two would be made at
// each call. The columns are lent apart from the contour, since they are written while it is read. Room for all posts is asked where arrays are lent:
// it ties them to the rings, and a contour alone may have any lengths.
mod records;

ghost use Rattle.std.specs.Prelude.{◌≡◌, ◌++◌, ◌+◌, ◌*◌, ◌≤◌, ◌<◌, length, take, drop};
ghost use Rattle.placing.specs.Stages.{third, stage};
ghost use Rattle.placing.specs.Records.{entries_of};
ghost use Rattle.contour.specs.Columns.{Readable, columns_of};
ghost use Rattle.contour.specs.Lent.{SameArrays};
ghost use Rattle.engine.specs.Lent.{board, listed, HasStage, ShowsIn, RoomIn, CornersIn, HoldsIn, ColumnedIn};

use contour::{Contour, put_entries};
use order::Runs;
pub use records::{ends_at, post_at};

// From stage k to stage k + 1: the post in position k + 1 is placed.
pub fn place_next(runs: Runs<'_>, k: usize, contour: &mut Contour<'_>)
    requires { (3 ≤ k) × (k < length (listed runs)) × HoldsIn runs k contour.old }
    ensures same_arrays { SameArrays contour.old contour.new }
    ensures holds { HoldsIn runs.entry (k + 1) contour.new }
{
    let run = runs.runs[k];
    let first = runs.plan.of_run(run, k + 1, 0);
    contour.place_over(runs.plan.vs[k], first, usize::from(run.many));
}

// Stage 3, with the three corners where S4 puts them.
fn start(v1: u16, v2: u16, v3: u16, contour: &mut Contour<'_>)
    requires { CornersIn v1 v2 v3 contour.old }
    ensures same_arrays { SameArrays contour.old contour.new }
    ensures shows { ShowsIn (third v1 v2 v3) contour.new }
{
    put_entries(contour.ys, [(v1, 0), (v2, 0), (v3, 1)]);
    put_entries(contour.off, [(v1, 0), (v2, 1), (v3, 1)]);
    put_entries(contour.cover, [(v1, v1), (v2, v2), (v3, v3)]);
    put_entries(contour.left, [(v1, v1), (v2, v3), (v3, v1)]);
    put_entries(contour.right, [(v1, v3), (v2, v2), (v3, v2)]);
}

// Stage k: stage 3, and one post after the other.
pub fn reach(runs: Runs<'_>, k: usize, contour: &mut Contour<'_>)
    requires { HasStage runs k × RoomIn (length (board runs)) contour.old }
    ensures same_arrays { SameArrays contour.old contour.new }
    ensures holds { HoldsIn runs.entry k contour.new }
{
    let vs = runs.plan.vs;
    start(vs[0], vs[1], vs[2], contour);
    for i in 3..k {
        place_next(runs, i, contour);
    }
}

// The columns of the posts placed at stage k. Slices: whoever reads may have no more of a contour to lend.
pub fn columns(vs: &[u16], off: &[u16], cover: &[u16], right: &[u16], xs: &mut [u16], k: usize)
    requires { Readable vs.now off.now cover.now right.now xs.old k }
    ensures { xs.new ≡ columns_of vs.now off.now cover.now right.now xs.old k }
{
    contour::spread(right, off, xs, vs[0], vs[1], vs.len());
    contour::settle(vs, off, cover, xs, k);
}

// Stage k with the columns of its posts.
pub fn draw(runs: Runs<'_>, k: usize, contour: &mut Contour<'_>, xs: &mut [u16])
    requires { HasStage runs k × RoomIn (length (board runs)) contour.old × (length (board runs) ≤ length xs.old) }
    ensures same_arrays { SameArrays contour.old contour.new }
    ensures columned { ColumnedIn runs.entry k contour.new xs.new }
{
    reach(runs, k, contour);
    // three of the arrays are lent at once
    let off = &mut *contour.off;
    let cover = &mut *contour.cover;
    let right = &mut *contour.right;
    columns(runs.plan.vs, off, cover, right, xs, k);
}

// The sheet of stage k: its entries, and the buffer beyond as it was.
pub fn sheet_at(
    runs: Runs<'_>,
    k: usize,
    contour: &mut Contour<'_>,
    xs: &mut [u16],
    buffer: &mut [u16],
)
    requires { HasStage runs k × RoomIn (length (board runs)) contour.old × (length (board runs) ≤ length xs.old)
        × (2 * k ≤ length buffer.old) }
    ensures same_arrays { SameArrays contour.old contour.new }
    ensures sheet { buffer.new ≡ entries_of (stage (board runs.entry) (take k (listed runs.entry))) ++ drop (2 * k) buffer.old }
{
    draw(runs, k, contour, xs);
    placing::write_sheet(runs.plan.vs, k, xs, contour.ys, buffer);
}
