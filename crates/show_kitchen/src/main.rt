// Prints the sheet in sheet.bin.
#![tactic(auto)]

use std::io;

fn main(rt: HostRuntime) -> io::Result<()> {
    printer::show(&rt)
}
