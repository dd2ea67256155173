// The services as C functions, for firmware and for tests: include/pgb.h declares them.
#![tactic(auto)]

ghost use Rattle.std.specs.Prelude.{◌≡◌};
ghost use Rattle.lamp.specs.Given.{accepted, refused, reply_of};
ghost use Rattle.lamp.specs.Refusals.{number_of, place_of};
ghost use Rattle.capi.specs.Codes.{refusal_code, code_of, post_of, CheckCode, SheetCode, PostStruct};

use lamp::Refusal;
use placing::{Record, Standing};

// A post's reply: acceptance is 0, and the record's numbers stand beside it; a refusal has zeros there. Numbers for kinds, as C has it.
#[repr(C)]
#[derive(Clone, Copy)]
pub struct PostReply {
    pub reply: u32,
    pub x: u16,
    pub y: u16,
    pub standing: u16,
    pub first: u16,
    pub second: u16,
    pub fit_left: u16,
    pub fit_right: u16,
}

// A refusal's number; below, a reply's. Functions and no `From`, since none of the types is this crate's.
fn refusal_code(r: Refusal) -> u32
    ensures { result ≡ refusal_code (number_of r) (place_of r) }
{
    let t = r.told();
    u32::from(t.number) * 65536 + u32::from(t.place)
}

// One number for a reply.
fn code(a: Result<u16, Refusal>) -> u32
    ensures { result ≡ code_of (reply_of a) }
{
    match a {
        Ok(v) => u32::from(v),
        Err(r) => refusal_code(r),
    }
}

#[unsafe(no_mangle)]
pub extern "C" fn pgb_check(block: &[u8]) -> u32
    ensures { CheckCode block.now result }
{
    code(unit::check(block))
}

#[unsafe(no_mangle)]
pub extern "C" fn pgb_sheet(block: &[u8], stage: usize, buffer: &mut [u16]) -> u32
    ensures { SheetCode block.now stage buffer.old result buffer.new }
{
    code(unit::sheet(block, stage, buffer))
}

impl From<Record> for PostReply {
    ghost from_gives = { λ r p. p ≡ post_of (accepted r) };

    fn from(r: Record) -> PostReply {
        let (standing, first, second) = match r.standing {
            Standing::Waiting => (0, 0, 0),
            Standing::OnContour(left, right) => (1, left, right),
            Standing::Covered(by) => (2, by, by),
        };
        PostReply {
            reply: 0,
            x: r.x,
            y: r.y,
            standing,
            first,
            second,
            fit_left: r.leftmost,
            fit_right: r.rightmost,
        }
    }
}

impl From<Refusal> for PostReply {
    ghost from_gives = { λ r p. p ≡ post_of (refused (number_of r) (place_of r)) };

    fn from(r: Refusal) -> PostReply {
        PostReply {
            reply: refusal_code(r),
            x: 0,
            y: 0,
            standing: 0,
            first: 0,
            second: 0,
            fit_left: 0,
            fit_right: 0,
        }
    }
}

#[unsafe(no_mangle)]
pub extern "C" fn pgb_post(block: &[u8], stage: usize, name: usize) -> PostReply
    ensures { PostStruct block.now stage name result }
{
    match unit::post(block, stage, name) {
        Ok(r) => PostReply::from(r),
        Err(f) => PostReply::from(f),
    }
}
