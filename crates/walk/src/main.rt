// Walks the sheet, the state and the wish in the files here.
#![tactic(auto)]

use std::io;

fn main(rt: HostRuntime) -> io::Result<()> {
    walker::walk(&rt)
}
