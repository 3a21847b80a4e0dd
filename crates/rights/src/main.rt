// Answers command lines: document 01's listing is its test. The buffers that a run is lent stand here: the three units, the line that is
// being read, and the output.

#![tactic(auto)]

use grants::Grants;
use lists::Lists;
use loans::Loans;
use rows::Rows;

fn main(rt: HostRuntime) {
    let mut input = rt.stdin();
    let mut list = [0u64; Lists::WORDS];
    let mut row = [0u8; Rows::BYTES];
    let mut grants = [0u8; Grants::BYTES];
    let mut loans = [0u32; Loans::WORDS];
    let mut buf = [0u8; 128];
    let mut out = [0u8; 65536];
    program::run(
        &mut input,
        &rt,
        &mut list,
        &mut row,
        &mut grants,
        &mut loans,
        &mut buf,
        &mut out,
    );
}
