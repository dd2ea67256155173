// The linked contour, in arrays by name: placing a post over its run, and reading the columns. Nothing here knows what a stage is.
#![tactic(auto)]

ghost use Rattle.std.specs.Prelude.{◌≡◌, ◌+◌, ◌-◌, ◌/◌, ◌≤◌, ◌<◌, length, get_or, set};
ghost use Rattle.block.specs.Layout.{bias};
ghost use Rattle.contour.specs.Columns.{until, laid, column_of, settled, ColumnFits, Settles, Rooms, Line};
ghost use Rattle.contour.specs.Entries.{Each, entered};
ghost use Rattle.contour.specs.Arrays.{path, walk, along, Below, covered, hung, SumsFit, drop_of, rise_of, run_end, far_at, new_off, new_height, Spans};
ghost use Rattle.contour.specs.Lent.{SameArrays, ReadyIn, OverIn};

use block::Block;

// The arrays of a contour, lent: of each post by name its height, its offset, the post that covers it, and its neighbours on the contour. They are
// five arrays, and no array of records, since the five may have any lengths (Ready and Over of specs/Arrays.antt); and neighbours are names, and no
// boxes, since memory is fixed. SameArrays ties what is lent before a call to what is lent after it, which no type can.
#[derive(Drop)]
pub struct Contour<'a> {
    pub ys: &'a mut [u16],
    pub off: &'a mut [u16],
    pub cover: &'a mut [u16],
    pub left: &'a mut [u16],
    pub right: &'a mut [u16],
}

// The new post's offset from w_p, with w_q `far` from it: a signed difference of heights, and half of an even sum. A rule of the project fixes
// this form: heights are subtracted as signed numbers, and the half is cast back.
fn half_drop(far: u16, yp: u16, yq: u16) -> u16
    requires { (yp ≤ far + yq) × (far + yq ≤ 65535) }
    ensures { result ≡ drop_of far yp yq }
{
    let d = i32::from(yq) - i32::from(yp);
    ((i32::from(far) + d) / 2) as u16
}

// Its height, by the same rule.
fn half_rise(far: u16, yp: u16, yq: u16) -> u16
    requires { far + yq + yp ≤ 65535 }
    ensures { result ≡ rise_of far yp yq }
{
    ((i32::from(far) + i32::from(yq) + i32::from(yp)) / 2) as u16
}

// Each post's entry becomes the number beside it, in turn.
pub fn put_entries<const N: usize>(s: &mut [u16], entries: [(u16, u16); N])
    requires { Each (length s.old) entries }
    ensures { s.new ≡ entered s.old entries.entry }
{
    for (a, x) in entries {
        s[usize::from(a)] = x;
    }
}

// The post m places right of p on the contour, and the sum of the offsets on the way.
#[derive(Clone, Copy)]
pub struct Span {
    pub end: u16,
    pub sum: u16,
}

fn reach_right(right: &[u16], off: &[u16], p: u16, m: usize) -> Span
    requires { Below (length right.now) (path right.now p m) × Below (length off.now) (path right.now (get_or right.now p 0) m)
        × (along off.now (path right.now (get_or right.now p 0) m) ≤ 65535) }
    ensures { (result.end ≡ walk right.now p m)
        × (result.sum ≡ along off.now (path right.now (get_or right.now p 0) m)) }
{
    let mut a = p;
    let mut s: u16 = 0;
    for _ in 0..m {
        a = right[usize::from(a)];
        s += off[usize::from(a)];
    }
    Span { end: a, sum: s }
}

// The m posts from `first` on are covered by v, whose offset is d. It takes only the arrays that it goes through: of the others nothing is to be said.
fn hang(right: &[u16], off: &mut [u16], cover: &mut [u16], first: u16, m: usize, d: u16, v: u16)
    requires { Below (length right.now) (path right.now first m) × Below (length off.old) (path right.now first m)
        × Below (length cover.old) (path right.now first m) × SumsFit off.old (path right.now first m) 1 d × (d ≤ bias) }
    ensures { (off.new ≡ hung off.old (path right.now first m) 1 d)
        × (cover.new ≡ covered cover.old (path right.now first m) v) }
{
    let mut a = first;
    let mut s: u16 = 1;
    for _ in 0..m {
        let j = usize::from(a);
        s += off[j];
        off[j] = s + Block::BIAS - d;
        cover[j] = v;
        a = right[j];
    }
}

// Where a post over a run goes: the run's last post, how far that stands from the first once it has moved, the new post's offset from the first,
// and its height.
#[derive(Clone, Copy)]
pub struct Spot {
    pub end: u16,
    pub far: u16,
    pub off: u16,
    pub height: u16,
}

impl Contour<'_> {
    // The spot over the run of m posts that begins with p.
    fn spot_over(&self, p: u16, m: usize) -> Spot
        requires { Spans p m self.now.ys.now self.now.off.now self.now.right.now }
        ensures { (result.end ≡ run_end self.now.right.now p m) × (result.far ≡ far_at self.now.right.now self.now.off.now p m)
            × (result.off ≡ new_off self.now.ys.now self.now.off.now self.now.right.now p m)
            × (result.height ≡ new_height self.now.ys.now self.now.off.now self.now.right.now p m) }
    {
        let e = reach_right(self.right, self.off, p, m - 1);
        let far = e.sum + 2;
        let yp = self.ys[usize::from(p)];
        let yq = self.ys[usize::from(e.end)];
        Spot {
            end: e.end,
            far,
            off: half_drop(far, yp, yq),
            height: half_rise(far, yp, yq),
        }
    }

    // v is put over the run of m posts that begins with p.
    pub fn place_over(&mut self, v: u16, p: u16, m: usize)
        requires { ReadyIn v p m self.old }
        ensures same_arrays { SameArrays self.old self.new }
        ensures over { OverIn v p m self.old self.new }
    {
        let s = self.spot_over(p, m);
        let first = self.right[usize::from(p)];
        // three of the arrays are lent at once
        let right = &mut *self.right;
        let off = &mut *self.off;
        let cover = &mut *self.cover;
        hang(right, off, cover, first, m - 2, s.off, v);
        let k = usize::from(v);
        self.ys[k] = s.height;
        self.cover[k] = v;
        put_entries(self.off, [(v, s.off), (s.end, s.far - s.off)]);
        // v stands between p and the run's last post on the contour
        put_entries(self.left, [(v, p), (s.end, v)]);
        put_entries(self.right, [(p, v), (v, s.end)]);
    }
}

// The columns of the contour, from v1 to v2, at most k posts. Slices, here and in settle: whoever reads may have no more of a contour to lend.
pub fn spread(right: &[u16], off: &[u16], xs: &mut [u16], v1: u16, v2: u16, k: usize)
    requires { Line right.now off.now xs.old v1 v2 k }
    ensures { xs.new ≡ laid xs.old off.now 0 (until right.now v1 v2 k) }
{
    let mut a = v1;
    let mut s: u16 = 0;
    for _ in 0..k {
        let j = usize::from(a);
        s += off[j];
        xs[j] = s;
        if a == v2 {
            return;
        }
        a = right[j];
    }
}

// The column of post u, which c covers, from c's.
fn column(xs: &[u16], off: &[u16], u: usize, c: usize) -> u16
    requires { (u < length xs.now) × (u < length off.now) × (c < length xs.now) × ColumnFits xs.now off.now u c }
    ensures { result ≡ column_of xs.now off.now u c }
{
    if c == u {
        return xs[u];
    }
    xs[c] + off[u] - Block::BIAS
}

// The columns of covered posts, from position k down: a cover stands in a later position, so its column is known.
pub fn settle(vs: &[u16], off: &[u16], cover: &[u16], xs: &mut [u16], k: usize)
    requires { Rooms vs.now off.now cover.now xs.old k × Settles xs.old off.now cover.now vs.now k }
    ensures { xs.new ≡ settled xs.old off.now cover.now vs.now k }
{
    for v in vs[..k].iter().rev() {
        let u = usize::from(*v);
        let c = usize::from(cover[u]);
        xs[u] = column(xs, off, u, c);
    }
}
