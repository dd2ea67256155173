// What `why` prints: check's reply in plain words.
ghost use Rattle.std.specs.Prelude.{◌≡◌, ◌≤◌, ◌<◌, length, OnOk, MatchOption};
ghost use Rattle.std.specs.Io.KnownBytes.{Appends};
ghost use Rattle.block.specs.Layout.{limit, order_at};
ghost use Rattle.block.specs.Block.{posts};
ghost use Rattle.lamp.specs.Refusals.{number_of, place_of};
ghost use Rattle.text.specs.Filling.{filling, filled_with};
ghost use Rattle.show.specs.Why.{accepted_line, refused_line, why_text};

use crate::{no_text, print, refusal};
use block::Block;
use lamp::Refusal;
use std::io;
use std::io::Write;
use text::Page;

// An accepted block of n posts.
fn accepted_line(n: u16, out: &mut [u8]) -> usize
    requires { (3 ≤ n) × (n ≤ limit) }
    ensures { filling result out.new ≡ filled_with (accepted_line n) out.old }
{
    let mut page = Page { out, at: 0 };
    page.numbered(
        b"accepted #: the board has # posts, and on its sheet x goes from 0 to ",
        n,
    );
    page.numbered(b"# and y from 0 to ", 2 * n - 4);
    page.numbered(b"#", n - 2);
    page.put(b'\n');
    page.at
}

// A refused block of n posts.
fn refused_line(r: Refusal, n: u16, out: &mut [u8]) -> usize
    ensures { filling result out.new ≡ filled_with (refused_line n (number_of r) (place_of r)) out.old }
{
    let mut page = Page { out, at: 0 };
    refusal(r, &mut page);
    page.say(b": ");
    reasons::reason(r, n, &mut page);
    page.put(b'\n');
    page.at
}

// The number of posts that the block states, if it is long enough to state one.
fn stated_posts(s: &[u8]) -> Option<u16>
    ensures { MatchOption result (length s.now < order_at) (λ n. n ≡ posts s.now) }
{
    if s.len() < Block::ORDER_AT {
        None
    } else {
        Some(words::word(s, Block::POSTS_AT))
    }
}

// A block's reply in plain words.
pub fn why(s: &[u8], out: &mut [u8]) -> usize
    ensures { filling result out.new ≡ filled_with (why_text s.now) out.old }
{
    match unit::check(s) {
        // where no number is stated, the words do not ask for one
        Err(r) => refused_line(r, stated_posts(s).unwrap_or(0), out),
        Ok(n) => accepted_line(n, out),
    }
}

// Prints a block's reply in plain words; a function of its own, as print_last says.
pub fn print_why<W: Write>(to: &mut W, s: &[u8]) -> io::Result<()>
    ensures { OnOk result (Appends (W.contents to.old) (W.contents to.new) (why_text s.now)) }
{
    let mut out = no_text();
    let n = why(s, &mut out);
    print(to, &out[..n])
}
