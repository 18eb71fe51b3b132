// Answers a list of inputs of the metrics crate, one line for each. The list is the file stdin, and the file stdout is what kanpig's Rust
// said to it; oracle/vectors tells how both are made and what a line holds. Here only safety is proved.
#![tactic(auto)]

ghost use Rattle.std.specs.Prelude.{◌≤◌, ◌<◌, ◌+◌, length};

use metrics::floats::bits_of;
use metrics::refusals::Refusal;
use std::io;
use streams::read_full;

// A number of the list, and the place of the byte behind it.
#[derive(Clone, Copy)]
struct Field {
    magnitude: u64,
    negative: bool,
    next: usize,
}

// Another digit, while there is room for it.
fn with_digit(magnitude: u64, byte: u8) -> u64 {
    if magnitude > 1000000000000000000 || byte < b'0' {
        return magnitude;
    }
    magnitude * 10 + ((byte - b'0') as u64)
}

// The first place at or behind `at` that holds no digit, or the last place.
fn digits_end(list: &[u8], at: usize) -> usize
    requires { at < length list.now }
    ensures { (at ≤ result) × (result < length list.now) }
{
    let last = list.len() - 1;
    for end in at..last {
        if !list[end].is_ascii_digit() {
            return end;
        }
    }
    last
}

fn digits_value(digits: &[u8]) -> u64 {
    let mut magnitude: u64 = 0;
    for &byte in digits {
        magnitude = with_digit(magnitude, byte);
    }
    magnitude
}

fn first_digit(list: &[u8], at: usize) -> usize
    requires { at < length list.now }
    ensures { result < length list.now }
{
    if at + 1 < list.len() && list[at] == b'-' {
        at + 1
    } else {
        at
    }
}

// The number behind the byte at `at`: 0 where the list ends there.
fn number(list: &[u8], at: usize) -> Field
    requires { at < length list.now }
    ensures { result.next < length list.now }
{
    if at + 1 >= list.len() {
        return Field {
            magnitude: 0,
            negative: false,
            next: at,
        };
    }
    let from = first_digit(list, at + 1);
    let next = digits_end(list, from);
    Field {
        magnitude: digits_value(&list[from..next]),
        negative: list[at + 1] == b'-',
        next,
    }
}

// The first newline behind `at`, or the last place.
fn line_end(list: &[u8], at: usize) -> usize
    requires { at + 1 < length list.now }
    ensures { (at < result) × (result < length list.now) }
{
    let last = list.len() - 1;
    for end in at + 1..last {
        if list[end] == b'\n' {
            return end;
        }
    }
    last
}

// The letters behind the byte at `at`, over and over until the room is full. Where there are none, the byte that ends the line stands for them.
fn repeated_letters(list: &[u8], at: usize) -> [u8; 131073]
    requires { at + 1 < length list.now }
{
    let first = at + 1;
    let width = (line_end(list, at) - first).max(1);
    let mut letters = [0u8; 131073];
    for (i, letter) in letters.iter_mut().enumerate() {
        *letter = list[first + i % width];
    }
    letters
}

fn print_counted(
    rt: &impl Print,
    letters: &[u8],
    k: u8,
    negative: bool,
    row: &mut [i32],
) -> io::Result<()> {
    match metrics::kmer::seq_to_kmer(letters, k, negative, 0, row) {
        Ok(()) => print!(rt; "counted")?,
        Err(refusal) => print_refused(rt, refusal)?,
    }
    for (i, &x) in row.iter().enumerate() {
        if x != 0 {
            print!(rt; " {i}:{x}")?;
        }
    }
    print!(rt; "\n")
}

fn print_refused(rt: &impl Print, refusal: Refusal) -> io::Result<()> {
    let number = u32::from(refusal);
    print!(rt; "refused {number}")
}

// k, negative, room, number of letters, letters. The room holds sevens before the call.
fn answer_counter(rt: &impl Print, list: &[u8], at: usize) -> io::Result<()>
    requires { at < length list.now }
{
    let k = number(list, at);
    let negative = number(list, k.next);
    let room = number(list, negative.next);
    let count = number(list, room.next);
    if count.next + 1 >= list.len() {
        return Ok(());
    }
    let letters = repeated_letters(list, count.next);
    let n = count.magnitude.min(131073) as usize;
    let entries = room.magnitude.min(4096) as usize;
    let mut row = [7i32; 4096];
    print_counted(
        rt,
        &letters[..n],
        k.magnitude.min(255) as u8,
        negative.magnitude == 1,
        &mut row[..entries],
    )
}

fn entry(x: Field) -> i32 {
    if x.magnitude == 2147483648 {
        return i32::MIN;
    }
    let wide = x.magnitude.min(2147483647) as i32;
    if x.negative { -wide } else { wide }
}

// The next numbers, as many as there is room for. Returns the place behind them.
fn read_row(list: &[u8], at: usize, row: &mut [i32]) -> usize
    requires { at < length list.now }
    ensures { result < length list.now }
{
    let mut next = at;
    for place in row {
        let x = number(list, next);
        *place = entry(x);
        next = x.next;
    }
    next
}

fn print_sim(rt: &impl Print, sim: Result<f32, Refusal>) -> io::Result<()> {
    match sim {
        Ok(x) => {
            let bits = bits_of(x);
            print!(rt; "value {bits:08x}\n")
        }
        Err(refusal) => {
            print_refused(rt, refusal)?;
            print!(rt; "\n")
        }
    }
}

// minkfreq, the lengths of two rows of at most 64 entries, their entries.
fn answer_seqsim(rt: &impl Print, list: &[u8], at: usize) -> io::Result<()>
    requires { at < length list.now }
{
    let minkfreq = number(list, at);
    let first = number(list, minkfreq.next);
    let second = number(list, first.next);
    let m = first.magnitude.min(64) as usize;
    let n = second.magnitude.min(64) as usize;
    let mut a = [0i32; 64];
    let behind = read_row(list, second.next, &mut a[..m]);
    let mut b = [0i32; 64];
    read_row(list, behind, &mut b[..n]);
    print_sim(
        rt,
        metrics::seqsim(&a[..m], &b[..n], minkfreq.magnitude.min(4294967295) as u32),
    )
}

fn answer_sizesim(rt: &impl Print, list: &[u8], at: usize) -> io::Result<()>
    requires { at < length list.now }
{
    let a = number(list, at);
    let b = number(list, a.next);
    print_sim(rt, metrics::sizesim(a.magnitude, b.magnitude))
}

fn answer_overlaps(rt: &impl Print, list: &[u8], at: usize) -> io::Result<()>
    requires { at < length list.now }
{
    let s1 = number(list, at);
    let e1 = number(list, s1.next);
    let s2 = number(list, e1.next);
    let e2 = number(list, s2.next);
    if metrics::overlaps(s1.magnitude, e1.magnitude, s2.magnitude, e2.magnitude) {
        print!(rt; "yes\n")
    } else {
        print!(rt; "no\n")
    }
}

fn answer_line(rt: &impl Print, list: &[u8], at: usize) -> io::Result<()>
    requires { at + 1 < length list.now }
{
    match list[at] {
        b'c' => answer_counter(rt, list, at + 1),
        b's' => answer_seqsim(rt, list, at + 1),
        b'z' => answer_sizesim(rt, list, at + 1),
        b'o' => answer_overlaps(rt, list, at + 1),
        _ => Ok(()),
    }
}

// A line is as long as its newline says, so this walks by no steps of one.
fn answer_lines(rt: &impl Print, list: &[u8]) -> io::Result<()> {
    let mut at = 0;
    while at + 1 < list.len() {
        answer_line(rt, list, at)?;
        at = line_end(list, at) + 1;
    }
    Ok(())
}

fn main(rt: HostRuntime) -> io::Result<()> {
    let mut list = [0u8; 65536];
    let n = read_full(&mut rt.stdin(), &mut list);
    answer_lines(&rt, &list[..n])
}
