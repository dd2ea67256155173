// The header's groups of rows: the opening, the size and the sum.
ghost use Rattle.std.specs.Prelude.{◌≡◌, ◌++◌};
ghost use Rattle.block.specs.Block.{posts};
ghost use Rattle.lamp.specs.Lamp.{opening_rows, size_rows, header_rows, sum_rows};
ghost use Rattle.lamp.specs.Given.{reply_of, given, tried};

use crate::Refusal;
use block::{Block, Body};

// At least 7 bytes, the mark and the version; the block's n is answered where none applies.
fn opening(s: &[u8]) -> Result<u16, Refusal>
    ensures { reply_of result ≡ given opening_rows s.now posts }
{
    if s.len() < Block::ORDER_AT {
        return Err(Refusal::Short);
    }
    if !block::is_marked(s) {
        return Err(Refusal::Mark);
    }
    if words::word(s, Block::VERSION_AT) != 1 {
        return Err(Refusal::Version);
    }
    Ok(words::word(s, Block::POSTS_AT))
}

// The range of n, and the length.
fn sized(s: &[u8], b: Block) -> Result<(), Refusal>
    requires { b.n ≡ posts s.now }
    ensures { reply_of result ≡ tried size_rows s.now }
{
    if b.n < 3 {
        return Err(Refusal::Posts);
    }
    if Block::LIMIT < b.n {
        return Err(Refusal::Posts);
    }
    if s.len() != b.size() {
        return Err(Refusal::Length);
    }
    Ok(())
}

// The sum.
fn summed(b: Body<'_>) -> Result<(), Refusal>
    ensures { reply_of result ≡ tried sum_rows b.entry.bytes.now }
{
    let e = b.block.sum_at();
    if words::word(b.bytes, e) != words::sum(&b.bytes[..e]) {
        return Err(Refusal::Sum);
    }
    Ok(())
}

// Mark, version, n, length and sum; n is answered where none applies.
pub fn header(s: &[u8]) -> Result<u16, Refusal>
    ensures { reply_of result ≡ given (header_rows ++ sum_rows) s.now posts }
{
    let n = opening(s)?;
    let block = Block { n: usize::from(n) };
    sized(s, block)?;
    summed(Body { bytes: s, block })?;
    Ok(n)
}
