// Reads a sheet on standard input and prints an account of it in plain words.
#![tactic(auto)]

use account::{GUIDE_ROWS, LINK_ROWS, MOST_BYTES, report};
use repertoire::Link;
use scale::weave_cost;
use std::io;
use std::io::Read;

fn main(rt: HostRuntime) -> io::Result<()> {
    let heap = rt.alloc();
    let mut sheet = Vec::new(heap);
    // One byte more than a sheet may have tells that it is too long.
    let mut input = rt.stdin().take(MOST_BYTES as u64 + 1);
    input.read_to_end(&mut sheet)?;
    let none = weave_cost(0, 0, 0);
    let mut links = vec![in heap; Link {
        from: 0,
        to: 0,
        cost: none
    }; LINK_ROWS]?;
    let mut guides = vec![in heap; none; GUIDE_ROWS]?;
    match report(
        sheet.as_slice(),
        links.as_mut_slice(),
        guides.as_mut_slice(),
    ) {
        Ok(account) => print!(rt; "{account}"),
        Err(rejection) => println!(rt; "{rejection}"),
    }
}
