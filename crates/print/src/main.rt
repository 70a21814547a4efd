// Reads a bundle from standard input and prints the profile of the run that it asks for.
#![tactic(auto)]

use std::io;

fn main(rt: HostRuntime) -> io::Result<()> {
    // a byte more than a bundle may have: a longer one is seen to be too long
    let mut bytes = [0u8; 16385];
    let mut result = [0u8; 4096];
    let mut work = [0u8; 65536];
    let mut text = [0u8; 4096];
    let n = reading::read_full(&mut rt.stdin(), &mut bytes)?;
    let size = profile::print(&bytes[..n], &mut result, &mut work, &mut text);
    rt.write_all(&text[..size])
}
