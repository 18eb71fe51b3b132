// Answers a stored list of jobs, each as four bytes of length and its own bytes. Its file 'stdout' is what kanpig's Rust said of them
// (oracle/README.md).
#![tactic(auto)]

use fields::u32_at;
use std::io;
use std::io::Read;
use streams::read_full;

// Reads one job and prints its answer. False where the list ends, or holds a job for which there is no room.
fn answer_next<R: Read>(rt: &impl Print, input: &mut R) -> io::Result<bool> {
    let mut head = [0u8; 4];
    if read_full(input, &mut head) < head.len() {
        return Ok(false);
    }
    let mut room = [0u8; 32769];
    let Some(job) = room.get_mut(..u32_at(&head, 0) as usize) else {
        return Ok(false);
    };
    read_full(input, job);
    let mut out = [0u8; 8192];
    let written = desk::answer(job, &mut out);
    let Some(text) = out.get(..written) else {
        return Ok(false);
    };
    rt.write_all(text)?;
    Ok(true)
}

// A loop has to end, so it counts its turns, of which a list has fewer.
fn main(rt: HostRuntime) -> io::Result<()> {
    let mut input = rt.stdin();
    for _ in 0..10000 {
        if !answer_next(&rt, &mut input)? {
            break;
        }
    }
    Ok(())
}
