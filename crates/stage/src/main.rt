// Reads standard input as one block and prints the stage that the argument names, or the refusal. An argument that is no number needs no block.
// What was read is the block where a read failed, and a write that fails is let go.
#![tactic(auto)]

use std::env::Env;

fn main(rt: HostRuntime) {
    let mut word = [0u8; 32];
    let w = rt.arg(1, &mut word).unwrap_or(0);
    let word = &word[..w];
    let mut block = show::no_bytes();
    let n = match text::said(word, 0) {
        Some(_) => show::read_block(&mut rt.stdin(), &mut block).0,
        None => 0,
    };
    let _ = show::print_stage(&mut rt.stdout(), &block[..n], word);
}
