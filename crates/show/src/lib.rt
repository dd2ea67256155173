// What the programs print, byte for byte as specs/ defines it, in a lent buffer; handing it to a writer; and reading a block.
#![tactic(auto)]

mod input;
mod plain;
mod replies;

ghost use Rattle.std.specs.Prelude.{◌≡◌, ◌++◌, ◌+◌, ◌*◌, ◌≤◌, length, OnOk};
ghost use Rattle.std.specs.Io.KnownBytes.{Appends};
ghost use Rattle.block.specs.Layout.{limit, size};
ghost use Rattle.block.specs.Block.{order};
ghost use Rattle.lamp.specs.Refusals.{number_of, place_of};
ghost use Rattle.text.specs.Filling.{filling, filled_with};
ghost use Rattle.text.specs.Pages.{Writes};
ghost use Rattle.show.specs.Shown.{refusal_text, refusal_line, head_line, position_line, lines_to, sheet_text, last_text, stage_text, longest_text};
ghost use Rattle.show.specs.Entered.{entry_line};

use block::{Block, Body};
pub use input::read_block;
use lamp::Refusal;
pub use plain::{print_why, why};
pub use replies::{check, reply_of_post, reply_of_sheet};
use std::io;
use std::io::Write;
use text::Page;

// A refusal: the word, its number and its place.
pub fn refusal(r: Refusal, page: &mut Page)
    ensures { Writes page.old (refusal_text (number_of r) (place_of r)) page.new }
{
    let told = r.told();
    page.say(b"refused");
    page.spaced(told.number);
    page.spaced(told.place);
}

// The same as a line.
pub fn refusal_line(r: Refusal, page: &mut Page)
    ensures { Writes page.old (refusal_line (number_of r) (place_of r)) page.new }
{
    refusal(r, page);
    page.put(b'\n');
}

// A refusal's line alone. What begins a text takes a buffer and answers how many bytes it put there, as `Read::read` does; what goes on takes the page.
pub fn refused(r: Refusal, out: &mut [u8]) -> usize
    ensures { filling result out.new ≡ filled_with (refusal_line (number_of r) (place_of r)) out.old }
{
    let mut page = Page { out, at: 0 };
    refusal_line(r, &mut page);
    page.at
}

// A sheet's first line.
fn head_line(n: u16, k: u16, page: &mut Page)
    ensures { Writes page.old (head_line n k) page.new }
{
    page.say(b"sheet");
    page.spaced(n);
    page.spaced(k);
    page.put(b'\n');
}

// The line of a position.
fn position_line(i: u16, u: u16, x: u16, y: u16, page: &mut Page)
    ensures { Writes page.old (position_line i u x y) page.new }
{
    page.number(i);
    page.spaced(u);
    page.spaced(x);
    page.spaced(y);
    page.put(b'\n');
}

// The lines of the positions from 1 on, from the names and the sheet's entries. Numbers are narrowed by `as`, which is proved to lose nothing:
// `try_from` would answer an error that cannot come.
fn lines(vs: &[u16], b: &[u16], page: &mut Page)
    requires { (2 * length vs.now ≤ length b.now) × (length vs.now ≤ limit) }
    ensures { Writes page.old (lines_to (length vs.now) (entry_line vs.now b.now)) page.new }
{
    for (i, u) in vs.iter().enumerate() {
        position_line((i + 1) as u16, *u, b[2 * i], b[2 * i + 1], page);
    }
}

// Stage k of a block, whose entries stand in `sheet`. The order is read out as in fits, and other lines
// are made of it: a common function would have to hand back the array.
fn whole_sheet(b: Body<'_>, k: usize, sheet: &[u16], out: &mut [u8]) -> usize
    requires { (k ≤ b.block.n) × (2 * k ≤ length sheet.now) }
    ensures { filling result out.new ≡ filled_with
        (head_line b.entry.block.n k ++ lines_to k (entry_line (order b.entry.bytes.now) sheet.now)) out.old }
{
    let n = b.block.n;
    let mut vs = [0u16; Block::LIMIT];
    let names = &mut vs[..n];
    words::unpack(b.bytes, Block::ORDER_AT, names);
    let mut page = Page { out, at: 0 };
    head_line(n as u16, k as u16, &mut page);
    lines(&names[..k], sheet, &mut page);
    page.at
}

// Three arrays, each with its length for a promise: a generic one would be `[zero; N]` itself.
// The entries of the longest sheet.
const SHEET: usize = 2 * Block::LIMIT;

pub fn blank() -> [u16; SHEET]
    ensures { 2 * limit ≡ length result }
{
    [0u16; SHEET]
}

// A block's sheet at stage k, or its refusal.
pub fn sheet(s: &[u8], k: usize, out: &mut [u8]) -> usize
    ensures { filling result out.new ≡ filled_with (sheet_text s.now k) out.old }
{
    let mut b = blank();
    match unit::sheet(s, k, &mut b) {
        Err(r) => refused(r, out),
        Ok(_) => {
            let n = usize::from(words::word(s, Block::POSTS_AT));
            let body = Body {
                bytes: s,
                block: Block { n },
            };
            whole_sheet(body, k, &b, out)
        }
    }
}

// A block's last sheet, or its refusal.
pub fn last_sheet(s: &[u8], out: &mut [u8]) -> usize
    ensures { filling result out.new ≡ filled_with (last_text s.now) out.old }
{
    match unit::check(s) {
        Err(r) => refused(r, out),
        Ok(n) => sheet(s, usize::from(n), out),
    }
}

// The sheet of the stage that the word names, or its refusal, or how the program is called. A word that says more than the limit names no stage.
pub fn stage(s: &[u8], word: &[u8], out: &mut [u8]) -> usize
    ensures { filling result out.new ≡ filled_with (stage_text s.now word.now) out.old }
{
    match text::said(word, (Block::LIMIT + 1) as u16) {
        Some(k) => sheet(s, k, out),
        None => {
            let mut page = Page { out, at: 0 };
            page.say(b"usage: stage K < block, with K the stage, from 3 to the number of posts\n");
            page.at
        }
    }
}

// The longest text.
const TEXT: usize = 18 + 24 * Block::LIMIT;

pub fn no_text() -> [u8; TEXT]
    ensures { longest_text ≡ length result }
{
    [0u8; TEXT]
}

// What a program reads of its input: a byte more than the longest block has. Every longer input gets the same reply.
const READ: usize = Block::LONGEST + 1;

pub fn no_bytes() -> [u8; READ]
    ensures { size limit + 1 ≡ length result }
{
    [0u8; READ]
}

// To a writer, all of it or an error.
pub fn print<W: Write>(to: &mut W, t: &[u8]) -> io::Result<()>
    ensures { OnOk result (Appends (W.contents to.old) (W.contents to.new) t.now) }
{
    to.write_all(t)
}

// A function for each text, here, in plain.rt and in fits: one over the function that fills the buffer would tell the text by `F.post`, in more words
// than these bodies have.
// Prints a block's last sheet, or its refusal: what is handed to the writer is the whole text.
pub fn print_last<W: Write>(to: &mut W, s: &[u8]) -> io::Result<()>
    ensures { OnOk result (Appends (W.contents to.old) (W.contents to.new) (last_text s.now)) }
{
    let mut out = no_text();
    let n = last_sheet(s, &mut out);
    print(to, &out[..n])
}

// Prints the stage that the word names.
pub fn print_stage<W: Write>(to: &mut W, s: &[u8], word: &[u8]) -> io::Result<()>
    ensures { OnOk result (Appends (W.contents to.old) (W.contents to.new) (stage_text s.now word.now)) }
{
    let mut out = no_text();
    let n = stage(s, word, &mut out);
    print(to, &out[..n])
}
