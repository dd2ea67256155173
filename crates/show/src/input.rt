// Reading a block.
ghost use Rattle.std.specs.Prelude.{◌≡◌, ◌<◌, ◌≤◌, length, take, OnOk, IfSome};
ghost use Rattle.std.specs.Io.KnownBytes.{Consumes, IsAtEnd};

use std::io;
use std::io::Read;

// Reads until the buffer is full, the input ends or a read fails: how many bytes it put at the buffer's start, and whether a read failed.
// Both, since what was read counts where a read failed (rule T1); by `read`, since `read_exact` says nothing there of what was read.
pub fn read_block<R: Read>(input: &mut R, block: &mut [u8]) -> (usize, io::Result<()>)
    ensures in_bounds { result.0 ≤ length block.new }
    ensures bytes { Consumes (R.remaining input.old) (R.remaining input.new) (take result.0 block.new) }
    ensures end { OnOk result.1 (result.0 < length block.new → IsAtEnd (R.remaining input.new)) }
    ensures front { OnOk result.1 (IfSome (R.remaining input.old) (λ xs. take result.0 block.new ≡ take (length block.new) xs)) }
{
    let mut done = 0;
    while done < block.len() {
        match input.read(&mut block[done..]) {
            Ok(0) => return (done, Ok(())),
            Ok(n) => done += n,
            Err(e) => return (done, Err(e)),
        }
    }
    (done, Ok(()))
}
