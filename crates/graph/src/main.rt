// Prints the picture of the sheet in sheet.bin for Graphviz, or the sheet's refusal.
#![tactic(auto)]

use printer::{load, refusal_in_words, within};
use std::io;

// The picture of the sheet that a file is. No text is longer than the buffer.
fn print_graph(rt: &impl Print, file: &[u8]) -> io::Result<()> {
    let mut buffer = [0u8; 7273];
    match picture::graph::draw(file, &mut buffer) {
        Ok(bytes) => {
            let n = within(bytes, &buffer);
            rt.write_all(&buffer[..n])
        }
        Err(refusal) => refusal_in_words(rt, refusal),
    }
}

// No longer file has another reply than its first 73,728 bytes.
fn main(rt: HostRuntime) -> io::Result<()> {
    let mut file = [0u8; 73728];
    let n = load(&rt, b"sheet.bin", &mut file);
    print_graph(&rt, &file[..n])
}
