// The lamp: the refusals with their numbers and places, and the steps of check, tried in the table's order over lent arrays. Each group of rows
// is one function's.
#![tactic(auto)]

ghost use Rattle.std.specs.Prelude.{◌≡◌, ◌++◌, ◌≤◌, length, take, OnOk, IfOk};
ghost use Rattle.block.specs.Layout.{limit};
ghost use Rattle.block.specs.Block.{order, degrees};
ghost use Rattle.lamp.specs.Refusals.{number_of, place_of};
ghost use Rattle.lamp.specs.Lamp.{order_rows, degree_rows};
ghost use Rattle.lamp.specs.Given.{reply_of, tried, check_reply};
ghost use Rattle.lamp.specs.Loaded.{load_rows, loaded_rows, WideOrder, Entered, Ordered};
ghost use Rattle.lamp.specs.Lent.{LoadedIn, CheckedIn, SameArrays};

mod arrays;
mod frame;
mod rules;

pub use arrays::Arrays;
use block::{Block, Body};
use order::Run;
use rules::Board;

// Why a call is refused, with the place where there is one: a position, or a name.
#[derive(Clone, Copy)]
pub enum Refusal {
    Short,
    Mark,
    Version,
    Posts,
    Length,
    Sum,
    Order(u16),
    Degrees(u16),
    High(u16),
    Itself(u16),
    Repeated(u16),
    Unreturned(u16),
    Triangle(u16),
    Outer,
    Few(u16),
    Broken(u16),
    Stage,
    Room,
    Name,
}

// A refusal as it is told: its number, and its place: a position, a name, or 0. The numbers are the table's and the C interface's.
#[derive(Clone, Copy)]
pub struct Told {
    pub number: u16,
    pub place: u16,
}

impl Refusal {
    // Its number in the table (docs/RULES.md: N), and its place.
    pub fn told(self) -> Told
        ensures { (result.number ≡ number_of self) × (result.place ≡ place_of self) }
    {
        let (number, place) = match self {
            Refusal::Short => (1, 0),
            Refusal::Mark => (2, 0),
            Refusal::Version => (3, 0),
            Refusal::Posts => (4, 0),
            Refusal::Length => (5, 0),
            Refusal::Sum => (6, 0),
            Refusal::Order(k) => (7, k),
            Refusal::Degrees(u) => (8, u),
            Refusal::High(u) => (9, u),
            Refusal::Itself(u) => (18, u),
            Refusal::Repeated(u) => (19, u),
            Refusal::Unreturned(u) => (20, u),
            Refusal::Triangle(u) => (10, u),
            Refusal::Outer => (11, 0),
            Refusal::Few(k) => (12, k),
            Refusal::Broken(k) => (13, k),
            Refusal::Stage => (15, 0),
            Refusal::Room => (16, 0),
            Refusal::Name => (17, 0),
        };
        Told { number, place }
    }
}

// That an array has room for all names is asked where it is lent, here, below and in block: it is that array's length, and no type of its own.
// The order's entries; vs becomes the order.
fn order_in(b: Body<'_>, vs: &mut [u16]) -> Result<(), Refusal>
    requires { limit ≤ length vs.old }
    ensures { (reply_of result ≡ tried order_rows b.entry.bytes.now) × (take b.entry.block.n vs.new ≡ order b.entry.bytes.now) }
{
    match b.read_order(vs) {
        Some(k) => Err(Refusal::Order(k)),
        None => Ok(()),
    }
}

// The degrees and their total, which the order has not, so that one function for both would take two steps as closures; ds becomes the degrees. The
// name n, which no post has, tells that they are wrong together, as the table has it; it is narrowed by `as`, which is proved to lose nothing.
fn degrees_in(b: Body<'_>, ds: &mut [u16]) -> Result<(), Refusal>
    requires { limit ≤ length ds.old }
    ensures { (reply_of result ≡ tried degree_rows b.entry.bytes.now) × (take b.entry.block.n ds.new ≡ degrees b.entry.bytes.now) }
{
    if let Some(u) = b.read_degrees(ds) {
        return Err(Refusal::Degrees(u));
    }
    let n = b.block.n;
    if block::total(&ds[..n]) != b.block.entries() {
        return Err(Refusal::Degrees(n as u16));
    }
    Ok(())
}

// The order and the degrees. Where they pass, the arrays hold the order and the lists.
fn load(b: Body<'_>, ds: &mut [u16], arrays: &mut Arrays<'_>) -> Result<(), Refusal>
    requires { limit ≤ length ds.old }
    ensures same { SameArrays arrays.old arrays.new }
    ensures reply { reply_of result ≡ tried load_rows b.entry.bytes.now }
    ensures kept { OnOk result (LoadedIn b.entry.bytes.now b.entry.block.n arrays.new) }
{
    order_in(b, arrays.vs)?;
    degrees_in(b, ds)?;
    rings::read_lists(b, &ds[..b.block.n], arrays.at, arrays.ents);
    Ok(())
}

// The board and the rule per position, where the arrays hold the order and the lists; rank becomes the positions by name, and runs the runs.
fn loaded(
    b: Body<'_>,
    arrays: &Arrays<'_>,
    rank: &mut [u16],
    runs: &mut [Run],
) -> Result<(), Refusal>
    requires { LoadedIn b.bytes.now b.block.n arrays.now × Entered b.bytes.now × WideOrder rank.old runs.old }
    ensures reply { reply_of result ≡ tried (loaded_rows b.entry.bytes.now) b.entry.bytes.now }
    ensures kept { OnOk result (Ordered b.entry.bytes.now rank.new runs.new) }
{
    let board = Board::held(b, arrays.vs, arrays.at, arrays.ents);
    board.sound()?;
    order::ranks(board.plan.vs, rank);
    board.fitting(rank, runs)
}

// check, with the arrays lent: after an acceptance they hold the order and the lists, rank the positions by name, and runs the runs by position.
pub fn check_into(
    s: &[u8],
    ds: &mut [u16],
    arrays: &mut Arrays<'_>,
    rank: &mut [u16],
    runs: &mut [Run],
) -> Result<u16, Refusal>
    requires { (limit ≤ length ds.old) × WideOrder rank.old runs.old }
    ensures same { SameArrays arrays.old arrays.new }
    ensures reply { reply_of result ≡ check_reply s.now }
    ensures kept { IfOk result (λ n. CheckedIn s.now n arrays.new rank.new runs.new) }
{
    let n = frame::header(s)?;
    let b = Body {
        bytes: s,
        block: Block { n: usize::from(n) },
    };
    load(b, ds, arrays)?;
    loaded(b, arrays, rank, runs)?;
    Ok(n)
}
