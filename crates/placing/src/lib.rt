// What is told of a stage: a post's record, and the sheet's entries. specs/ has the stages themselves.
#![tactic(auto)]

ghost use Rattle.std.specs.Prelude.{◌≡◌, ◌++◌, ℕ, ◌*◌, ◌≤◌, ◌<◌, length, get_or, take, drop};
ghost use Rattle.block.specs.Layout.{limit};
ghost use Rattle.placing.specs.Pairs.{pairs};

// How a post stands at a stage: not placed yet; on the contour, between its left and its right neighbour there; or covered, by the post whose
// placing covered it. Posts are told by name.
#[derive(Clone, Copy)]
pub enum Standing {
    Waiting,
    OnContour(u16, u16),
    Covered(u16),
}

// A post's record at a stage. A placed post was fitted between its leftmost and its rightmost neighbour of those placed before it; v1, v2 and a
// post that waits carry their own names there (rules R1, R8 and the C interface).
#[derive(Clone, Copy)]
pub struct Record {
    pub x: u16,
    pub y: u16,
    pub standing: Standing,
    pub leftmost: u16,
    pub rightmost: u16,
}

// The first 2k entries of the buffer become the sheet of stage k (R6); the others are not touched (R7). By index: over
// `chunks_exact_mut` the edit one_entry_too_many would not mean the same, and of the parts lent a proof knows the length alone.
pub fn write_sheet(vs: &[u16], k: usize, xs: &[u16], ys: &[u16], buffer: &mut [u16])
    requires { (k ≤ length vs.now) × (k ≤ limit) × (2 * k ≤ length buffer.old)
        × ((i : ℕ) → i < k → (get_or vs.now i 0 < length xs.now) × (get_or vs.now i 0 < length ys.now)) }
    ensures { buffer.new ≡ pairs xs.now ys.now (take k vs.now) ++ drop (2 * k) buffer.old }
{
    for (i, v) in vs[..k].iter().enumerate() {
        let u = usize::from(*v);
        buffer[2 * i] = xs[u];
        buffer[2 * i + 1] = ys[u];
    }
}
