// The rows that follow check's. Counts and names are narrowed by `as`, which is proved to lose nothing.
ghost use Rattle.std.specs.Prelude.{◌≡◌, ◌++◌, ◌*◌};
ghost use Rattle.lamp.specs.Lamp.{stage_rows, room_rows, name_rows};
ghost use Rattle.lamp.specs.Given.{reply_of, given, tried};

use block::Body;
use lamp::Refusal;

// The stage.
fn stage(b: Body<'_>, k: usize) -> Result<(), Refusal>
    ensures { reply_of result ≡ tried (stage_rows k) b.entry.bytes.now }
{
    if k < 3 {
        return Err(Refusal::Stage);
    }
    if b.block.n < k {
        return Err(Refusal::Stage);
    }
    Ok(())
}

// The stage, and the room in a buffer; the count of the entries that go there is answered.
pub fn room(b: Body<'_>, k: usize, room: usize) -> Result<u16, Refusal>
    ensures { reply_of result ≡ given (stage_rows k ++ room_rows k room) b.entry.bytes.now (λ z. 2 * k) }
{
    stage(b, k)?;
    if room < 2 * k {
        return Err(Refusal::Room);
    }
    Ok((2 * k) as u16)
}

// The stage, and the name of a post, which is answered: another row than the room, and another answer,
// which one function for both would take as arguments.
pub fn name(b: Body<'_>, k: usize, u: usize) -> Result<u16, Refusal>
    ensures { reply_of result ≡ given (stage_rows k ++ name_rows u) b.entry.bytes.now (λ z. u) }
{
    stage(b, k)?;
    if b.block.n <= u {
        return Err(Refusal::Name);
    }
    Ok(u as u16)
}
