// Reads one job from standard input, and writes its answer. One byte past the largest job shows that there is more.
#![tactic(auto)]

use std::io;
use streams::read_full;

fn main(rt: HostRuntime) -> io::Result<()> {
    let mut job = [0u8; 32769];
    let got = read_full(&mut rt.stdin(), &mut job);
    let mut out = [0u8; 8192];
    let n = desk::answer(&job[..got], &mut out);
    rt.write_all(&out[..n])
}
