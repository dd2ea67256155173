// The unit: its three services, and the ends of runs for those who print them. specs/ has their replies and the three demands; the refusals and
// the table are lamp's.
#![tactic(auto)]

ghost use Rattle.unit.specs.Promises.{CheckPromise, SheetPromise, EndsPromise, PostPromise};

mod held;
mod rows;

use held::{Drawn, Held};
use lamp::Refusal;
use placing::Record;

// check: any bytes; accepted with the number of posts, or the refusal and place that the table fixes.
pub fn check(s: &[u8]) -> Result<u16, Refusal>
    ensures { CheckPromise s.now result }
{
    let mut held = Held::new();
    held.check(s)
}

// sheet: any bytes, any stage, any buffer; accepted with 2k, as many entries as it wrote, or the refusal that the table fixes, with the buffer
// as it came.
pub fn sheet(s: &[u8], k: usize, buffer: &mut [u16]) -> Result<u16, Refusal>
    ensures { SheetPromise s.now k buffer.old result buffer.new }
{
    let mut held = Held::new();
    let b = held.accept(s)?;
    let count = rows::room(b, k, buffer.len())?;
    let mut drawn = Drawn::new();
    drawn.sheet(held.runs(b), k, buffer);
    Ok(count)
}

// ends: replies as sheet does, and writes the two ends of the run of each post placed, where sheet writes its x and y. What the two share stands in
// held and rows; one function for both would take what fills the buffer as a closure, and tell it by `F.post`.
pub fn ends(s: &[u8], k: usize, buffer: &mut [u16]) -> Result<u16, Refusal>
    ensures { EndsPromise s.now k buffer.old result buffer.new }
{
    let mut held = Held::new();
    let b = held.accept(s)?;
    let entries = rows::room(b, k, buffer.len())?;
    engine::ends_at(held.runs(b), k, buffer);
    Ok(entries)
}

// post: any bytes, any stage, any name; accepted with the post's record at that stage, or the refusal that the table fixes.
pub fn post(s: &[u8], k: usize, u: usize) -> Result<Record, Refusal>
    ensures { PostPromise s.now k u result }
{
    let mut held = Held::new();
    let b = held.accept(s)?;
    let name = rows::name(b, k, u)?;
    let mut drawn = Drawn::new();
    Ok(drawn.post(held.runs(b), held.rank(), k, name))
}
