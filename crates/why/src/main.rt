// Reads standard input as one block and prints check's reply in plain words.
// What was read is the block where a read failed, and a write that fails is let go.
// These lines stand in each program, to be read: no contract says what standard input and output do.
#![tactic(auto)]

fn main(rt: HostRuntime) {
    let mut block = show::no_bytes();
    let (n, _) = show::read_block(&mut rt.stdin(), &mut block);
    let _ = show::print_why(&mut rt.stdout(), &block[..n]);
}
