// What `fit` prints: for each position from 3 on, between which posts its post was fitted, and where it stands on the last sheet.
#![tactic(auto)]

ghost use Rattle.std.specs.Prelude.{◌≡◌, ◌*◌, ◌≤◌, length, IfOk, IfErr, OnOk};
ghost use Rattle.std.specs.Io.KnownBytes.{Appends};
ghost use Rattle.block.specs.Layout.{limit};
ghost use Rattle.block.specs.Block.{order};
ghost use Rattle.lamp.specs.Refusals.{number_of, place_of};
ghost use Rattle.text.specs.Filling.{filling, filled_with};
ghost use Rattle.text.specs.Pages.{Writes};
ghost use Rattle.show.specs.Shown.{refusal_line};
ghost use Rattle.fits.specs.Fit.{fit_line, lines_from_third, fit_text, longest_fit};
ghost use Rattle.fits.specs.Entered.{fit_entry_line};

use block::{Block, Body};
use lamp::Refusal;
use show::{blank, print, refused};
use std::io;
use std::io::Write;
use text::Page;

// The line of a position.
fn fit_line(i: u16, u: u16, l: u16, r: u16, x: u16, y: u16, page: &mut Page)
    ensures { Writes page.old (fit_line i u l r x y) page.new }
{
    page.number(i);
    page.spaced(u);
    page.say(b" between");
    page.spaced(l);
    page.spaced(r);
    page.spaced(x);
    page.spaced(y);
    page.put(b'\n');
}

// The lines of the positions from 3 on, from the names, the ends and the sheet's entries; positions are narrowed as in show.
fn fit_lines(vs: &[u16], ends: &[u16], sheet: &[u16], page: &mut Page)
    requires { (3 ≤ length vs.now) × (2 * length vs.now ≤ length ends.now) × (2 * length vs.now ≤ length sheet.now) × (length vs.now ≤ limit) }
    ensures { Writes page.old (lines_from_third (length vs.now) (fit_entry_line vs.now ends.now sheet.now)) page.new }
{
    for i in 2..vs.len() {
        fit_line(
            (i + 1) as u16,
            vs[i],
            ends[2 * i],
            ends[2 * i + 1],
            sheet[2 * i],
            sheet[2 * i + 1],
            page,
        );
    }
}

// A block, whose ends and entries of the last stage stand in the two buffers; the order is read out as in show::whole_sheet.
fn whole_fit(b: Body<'_>, ends: &[u16], sheet: &[u16], out: &mut [u8]) -> usize
    requires { (2 * b.block.n ≤ length ends.now) × (2 * b.block.n ≤ length sheet.now) }
    ensures { filling result out.new ≡ filled_with
        (lines_from_third b.entry.block.n (fit_entry_line (order b.entry.bytes.now) ends.now sheet.now)) out.old }
{
    let mut vs = [0u16; Block::LIMIT];
    let names = &mut vs[..b.block.n];
    words::unpack(b.bytes, Block::ORDER_AT, names);
    let mut page = Page { out, at: 0 };
    fit_lines(names, ends, sheet, &mut page);
    page.at
}

// An accepted block's lines; or the refusal, and nothing is written.
fn lines(s: &[u8], out: &mut [u8]) -> Result<usize, Refusal>
    ensures refused { IfErr result (λ r. (fit_text s.now ≡ refusal_line (number_of r) (place_of r)) × (out.new ≡ out.old)) }
    ensures told { IfOk result (λ end. filling end out.new ≡ filled_with (fit_text s.now) out.old) }
{
    let n = usize::from(unit::check(s)?);
    let mut sheet = blank();
    unit::sheet(s, n, &mut sheet)?;
    let mut ends = blank();
    unit::ends(s, n, &mut ends)?;
    let b = Body {
        bytes: s,
        block: Block { n },
    };
    Ok(whole_fit(b, &ends, &sheet, out))
}

// A block's lines, or its refusal.
pub fn fit(s: &[u8], out: &mut [u8]) -> usize
    ensures { filling result out.new ≡ filled_with (fit_text s.now) out.old }
{
    match lines(s, out) {
        Ok(end) => end,
        Err(r) => refused(r, out),
    }
}

// The longest text.
const FIT: usize = 44 * Block::LIMIT;

// A function, so that its contract ties FIT to the definition.
fn no_fit_text() -> [u8; FIT]
    ensures { longest_fit ≡ length result }
{
    [0u8; FIT]
}

// Prints a block's lines, or its refusal; a function of its own, as show::print_last says.
pub fn print_fit<W: Write>(to: &mut W, s: &[u8]) -> io::Result<()>
    ensures { OnOk result (Appends (W.contents to.old) (W.contents to.new) (fit_text s.now)) }
{
    let mut out = no_fit_text();
    let n = fit(s, &mut out);
    print(to, &out[..n])
}
