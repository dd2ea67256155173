// A service's whole reply as a line of text, for the worked cases.
ghost use Rattle.std.specs.Prelude.{◌≡◌};
ghost use Rattle.lamp.specs.Given.{reply_of, accepted};
ghost use Rattle.unit.specs.Replies.{buffer_after};
ghost use Rattle.text.specs.Filling.{filling, filled_with};
ghost use Rattle.text.specs.Pages.{Writes};
ghost use Rattle.show.specs.Replied.{answer_text, check_line, spaced_all, sheet_reply_line, standing_text, record_text, post_reply_line};

use crate::refusal;
use lamp::Refusal;
use placing::{Record, Standing};
use text::Page;

fn answer(a: Result<u16, Refusal>, page: &mut Page)
    ensures { Writes page.old (answer_text (reply_of a)) page.new }
{
    match a {
        Err(r) => refusal(r, page),
        Ok(v) => {
            page.say(b"accepted");
            page.spaced(v);
        }
    }
}

// What check replies.
pub fn check(s: &[u8], out: &mut [u8]) -> usize
    ensures { filling result out.new ≡ filled_with (check_line s.now) out.old }
{
    let mut page = Page { out, at: 0 };
    answer(unit::check(s), &mut page);
    page.put(b'\n');
    page.at
}

// Numbers, a space before each.
fn numbers(b: &[u16], page: &mut Page)
    ensures { Writes page.old (spaced_all b.now) page.new }
{
    for x in b {
        page.spaced(*x);
    }
}

// What sheet replies with a buffer of these entries, and what stands in the buffer afterwards.
pub fn reply_of_sheet(s: &[u8], k: usize, buffer: &mut [u16], out: &mut [u8]) -> usize
    ensures { (filling result out.new ≡ filled_with (sheet_reply_line s.now k buffer.old) out.old)
        × (buffer.new ≡ buffer_after s.now k buffer.old) }
{
    let mut page = Page { out, at: 0 };
    answer(unit::sheet(s, k, buffer), &mut page);
    page.say(b", buffer");
    numbers(buffer, &mut page);
    page.put(b'\n');
    page.at
}

fn standing(s: Standing, page: &mut Page)
    ensures { Writes page.old (standing_text s) page.new }
{
    match s {
        Standing::Waiting => page.say(b" waiting"),
        Standing::OnContour(l, r) => {
            page.say(b" on the contour between");
            page.spaced(l);
            page.spaced(r);
        }
        Standing::Covered(b) => {
            page.say(b" covered by");
            page.spaced(b);
        }
    }
}

fn placed(r: Record, page: &mut Page)
    ensures { Writes page.old (record_text (accepted r)) page.new }
{
    page.say(b"at");
    page.spaced(r.x);
    page.spaced(r.y);
    standing(r.standing, page);
    page.say(b", fit between");
    page.spaced(r.leftmost);
    page.spaced(r.rightmost);
}

// As answer, of a record: each text is a definition of its own.
fn posted(p: Result<Record, Refusal>, page: &mut Page)
    ensures { Writes page.old (record_text (reply_of p)) page.new }
{
    match p {
        Err(r) => refusal(r, page),
        Ok(r) => placed(r, page),
    }
}

// What post replies.
pub fn reply_of_post(s: &[u8], k: usize, u: usize, out: &mut [u8]) -> usize
    ensures { filling result out.new ≡ filled_with (post_reply_line s.now k u) out.old }
{
    let mut page = Page { out, at: 0 };
    posted(unit::post(s, k, u), &mut page);
    page.put(b'\n');
    page.at
}
