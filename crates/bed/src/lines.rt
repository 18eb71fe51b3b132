// One line: its text, and what it says.
ghost use Rattle.std.specs.Prelude.{◌≡◌, true, length};
ghost use Rattle.text.specs.Written.{Written};
ghost use Rattle.bed.specs.Bed.{good_name, bed_line};
ghost use Rattle.bed.specs.Reading.{same_bytes};
ghost use Rattle.bed.specs.Steps.{Judged};

use crate::parts::{behind, first, value};
use text::pieces::{put_bytes, put_digits};

// The numbers of a line.
#[derive(Clone, Copy)]
pub(crate) struct Bounds {
    pub(crate) start: u64,
    pub(crate) end: u64,
}

pub(crate) fn good_name(name: &[u8]) -> bool
    ensures { result ≡ good_name name.now }
{
    if name.is_empty() || name.len() > 32 {
        return false;
    }
    name.iter().all(|x| x.is_ascii_graphic())
}

pub(crate) fn put_line(out: &mut [u8], at: usize, name: &[u8], start: u64, end: u64) -> usize
    ensures { Written out.old at (bed_line name.now start end) out.new result }
{
    let a = put_bytes(out, at, name);
    let b = put_bytes(out, a, b"\t");
    let c = put_digits(out, b, start, 20);
    let d = put_bytes(out, c, b"\t");
    let e = put_digits(out, d, end, 20);
    put_bytes(out, e, b"\n")
}

// How long a line is. It is written to memory of its own: with a good name it has at most 75 bytes.
pub(crate) fn line_room(name: &[u8], start: u64, end: u64) -> usize
    requires { good_name name.now ≡ true }
    ensures { result ≡ length (bed_line name.now start end) }
{
    let mut own = [0u8; 75];
    put_line(&mut own, 0, name, start, end)
}

// Whether a line is the text of these three.
fn says(line: &[u8], name: &[u8], start: u64, end: u64) -> bool
    requires { good_name name.now ≡ true }
    ensures { result ≡ same_bytes line.now (bed_line name.now start end) }
{
    let mut own = [0u8; 75];
    let n = put_line(&mut own, 0, name, start, end);
    line == &own[..n]
}

// A line is read freely and written again: it is good where that gives the same bytes. So no form of a number but the written one is taken, and none past 64 bits.
pub(crate) fn line_of(line: &[u8]) -> Option<Bounds>
    ensures { Judged line.now result }
{
    let name = first(line, b'\t');
    if !good_name(name) {
        return None;
    }
    let rest = behind(line, b'\t');
    let start = value(first(rest, b'\t'));
    let end = value(first(behind(rest, b'\t'), b'\n'));
    if !says(line, name, start, end) {
        return None;
    }
    Some(Bounds { start, end })
}
