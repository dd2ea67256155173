// The cases E1 to E17 of docs/RULES.md, each run and printed but for the calls of ends; and what the bench program prints for T, for the
// autumn block and for an empty input.
#![tactic(auto)]

mod boards;
mod lists;
mod over;

use block::Block;
use std::io;
use std::io::Write;

// Room for the longest line of a case, and more.
const LINE: usize = 200;

// Prints a case: its title, and the line that `fill` puts into a buffer, of which it answers how many bytes the line has.
fn case<W: Write, F: FnOnce(&mut [u8]) -> usize>(
    to: &mut W,
    title: &[u8],
    fill: F,
) -> io::Result<()>
    requires { F.IsAlwaysCallable fill }
{
    show::print(to, title)?;
    let mut line = [0u8; LINE];
    let n = fill(&mut line);
    match line.get(..n) {
        Some(t) => show::print(to, t),
        None => Ok(()),
    }
}

fn check<W: Write>(to: &mut W, title: &[u8], s: &[u8]) -> io::Result<()> {
    case(to, title, |out| show::check(s, out))
}

fn sheet<W: Write>(to: &mut W, title: &[u8], s: &[u8], k: usize, b: &mut [u16]) -> io::Result<()> {
    case(to, title, |out| show::reply_of_sheet(s, k, b, out))
}

fn post<W: Write>(to: &mut W, title: &[u8], s: &[u8], k: usize, u: usize) -> io::Result<()> {
    case(to, title, |out| show::reply_of_post(s, k, u, out))
}

fn sheets<W: Write>(to: &mut W) -> io::Result<()> {
    let t = boards::board_t();
    let d = boards::board_d();
    let mut six = [9u16; 7];
    sheet(to, b"1. T, stage 3: ", &t, 3, &mut six)?;
    let mut third = [9u16; 7];
    sheet(to, b"2. D, stage 3: ", &d, 3, &mut third)?;
    let mut fourth = [9u16; 9];
    sheet(to, b"3. D, stage 4: ", &d, 4, &mut fourth)?;
    let mut fifth = [9u16; 11];
    sheet(to, b"4. D, stage 5: ", &d, 5, &mut fifth)
}

fn autumn_block<W: Write>(to: &mut W) -> io::Result<()> {
    let d = boards::autumn();
    check(to, b"5. D with order 0 1 3 2 4: ", &d)
}

fn rooms<W: Write>(to: &mut W) -> io::Result<()> {
    let d = boards::board_d();
    let mut b = [9u16; 12];
    sheet(to, b"6. D, stage 2: ", &d, 2, &mut b)?;
    sheet(to, b"6. D, stage 6: ", &d, 6, &mut b)?;
    let mut nine = [9u16; 9];
    sheet(to, b"6. D, stage 5 with 9 entries: ", &d, 5, &mut nine)?;
    let mut ten = [9u16; 10];
    sheet(to, b"6. D, stage 5 with 10 entries: ", &d, 5, &mut ten)
}

fn records<W: Write>(to: &mut W) -> io::Result<()> {
    let d = boards::board_d();
    post(to, b"7. D, post 2 at stage 3: ", &d, 3, 2)?;
    post(to, b"7. D, post 2 at stage 4: ", &d, 4, 2)?;
    post(to, b"8. D, post 4 at stage 4: ", &d, 4, 4)?;
    post(to, b"8. D, name 5 at stage 4: ", &d, 4, 5)
}

fn sums<W: Write>(to: &mut W) -> io::Result<()> {
    let mut t = boards::board_t();
    check(to, b"9. T with its last byte removed: ", &t[..32])?;
    t[32] = 237;
    check(to, b"9. T with sum 237: ", &t)
}

fn heads<W: Write>(to: &mut W) -> io::Result<()> {
    let mut d = boards::board_d();
    check(to, b"10. an empty block: ", &d[..0])?;
    check(to, b"10. a block of 6 bytes: ", &d[..6])?;
    d[6] = 2;
    check(to, b"10. n = 2: ", &d)?;
    // narrowed by `as`, which loses nothing
    let [high, low] = (Block::LIMIT as u16 + 1).to_be_bytes();
    d[5] = high;
    d[6] = low;
    check(to, b"10. n one above the limit: ", &d)?;
    let e = boards::twice();
    check(to, b"11. D with order 0 1 2 2 4: ", &e)
}

fn list_faults<W: Write>(to: &mut W) -> io::Result<()> {
    let high = lists::of_two(7, 289);
    check(to, b"12. D with 0 1 7 for the list of 2: ", &high)?;
    let itself = lists::of_two(2, 284);
    check(to, b"13. D with 0 1 2 for the list of 2: ", &itself)?;
    let repeated = lists::of_two(1, 283);
    check(to, b"14. D with 0 1 1 for the list of 2: ", &repeated)?;
    let unreturned = lists::of_two(4, 286);
    check(to, b"15. D with 0 1 4 for the list of 2: ", &unreturned)?;
    let high_first = lists::of_zero(7, 1, 288);
    check(to, b"16. D with 1 7 1 4 for the list of 0: ", &high_first)?;
    let repeated_first = lists::of_zero(1, 7, 288);
    check(
        to,
        b"16. D with 1 1 7 4 for the list of 0: ",
        &repeated_first,
    )
}

fn programs<W: Write>(to: &mut W) -> io::Result<()> {
    let t = boards::board_t();
    let d = boards::autumn();
    show::print(to, b"the program on T:\n")?;
    show::print_last(to, &t)?;
    show::print(to, b"the program on case 5:\n")?;
    show::print_last(to, &d)?;
    show::print(to, b"the program on an empty input:\n")?;
    show::print_last(to, &d[..0])
}

fn ends<W: Write>(to: &mut W) -> io::Result<()> {
    let l = over::board_l();
    post(to, b"17. L, post 3 at stage 4: ", &l, 4, 3)?;
    post(to, b"17. L, post 3 at stage 5: ", &l, 5, 3)?;
    post(to, b"17. L, post 0 at stage 5: ", &l, 5, 0)
}

fn main(rt: HostRuntime) -> io::Result<()> {
    let to = &mut rt.stdout();
    sheets(to)?;
    autumn_block(to)?;
    rooms(to)?;
    records(to)?;
    sums(to)?;
    heads(to)?;
    list_faults(to)?;
    ends(to)?;
    programs(to)
}
