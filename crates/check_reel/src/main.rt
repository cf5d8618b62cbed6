// The small program of document 01: reads a reel from standard input, and prints one line that says
// whether it is taken.
#![tactic(auto)]

use std::io;

// Asks for one byte more than the 65,536 that it takes, by which longer input is known.
fn main(rt: HostRuntime) -> io::Result<()> {
    let mut input = [0; 65537];
    let n = inputs::read_full(&mut rt.reader(), &mut input)?;
    let mut record = [0; 65536];
    let line = line::program_line(&input[..n], &mut record);
    rt.write_all(&line.bytes[..line.length])
}
