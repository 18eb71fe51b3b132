// The lines of an answer, each stored behind the other.
ghost use Rattle.std.specs.Prelude.{◌≡◌, take};
ghost use Rattle.text.specs.Text.{entry_text, entries_text, list_line, float_line, flag_line, number_line, is_whole, similarity_lines, reach_lines, eight_lines};
ghost use Rattle.text.specs.Written.{Written};

use crate::pieces::{put_bytes, put_digits, put_hex8};
use kplib::pathscore::Target;
use kplib::traverse::Answer;
use metrics::floats::bits_of;

// A row or a record number with the space before it.
fn put_entry(out: &mut [u8], at: usize, entry: u32) -> usize
    ensures { Written out.old at (entry_text entry) out.new result }
{
    let a = put_bytes(out, at, b" ");
    put_digits(out, a, entry as u64, 10)
}

fn put_entries(out: &mut [u8], at: usize, entries: &[u32]) -> usize
    ensures { Written out.old at (entries_text entries.now) out.new result }
{
    let mut end = at;
    for entry in entries {
        end = put_entry(out, end, *entry);
    }
    end
}

fn put_list_line(out: &mut [u8], at: usize, word: &[u8], entries: &[u32]) -> usize
    ensures { Written out.old at (list_line word.now entries.now) out.new result }
{
    let a = put_bytes(out, at, word);
    let b = put_entries(out, a, entries);
    put_bytes(out, b, b"\n")
}

// The first n of the entries, or all where there are fewer.
fn put_front_line(out: &mut [u8], at: usize, word: &[u8], entries: &[u32], n: usize) -> usize
    ensures { Written out.old at (list_line word.now (take n entries.now)) out.new result }
{
    put_list_line(out, at, word, &entries[..n.min(entries.len())])
}

fn put_float_line(out: &mut [u8], at: usize, word: &[u8], x: f32) -> usize
    ensures { Written out.old at (float_line word.now x) out.new result }
{
    let a = put_bytes(out, at, word);
    let b = put_hex8(out, a, bits_of(x));
    put_bytes(out, b, b"\n")
}

fn put_flag_line(out: &mut [u8], at: usize, word: &[u8], flag: bool) -> usize
    ensures { Written out.old at (flag_line word.now flag) out.new result }
{
    let a = put_bytes(out, at, word);
    put_bytes(out, a, if flag { b"yes\n" } else { b"no\n" })
}

pub(crate) fn put_number_line(out: &mut [u8], at: usize, word: &[u8], n: u32) -> usize
    ensures { Written out.old at (number_line word.now n) out.new result }
{
    let a = put_bytes(out, at, word);
    let b = put_digits(out, a, n as u64, 10);
    put_bytes(out, b, b"\n")
}

// `full` is yes for the whole haplotype.
#[tactic(auto, unfolding(crate::specs::Text::is_whole))]
fn is_whole(t: Target) -> bool
    ensures { result ≡ is_whole t }
{
    matches!(t, Target::Whole)
}

// The similarities of an answer, three lines.
fn put_similarities(out: &mut [u8], at: usize, a: Answer) -> usize
    ensures { Written out.old at (similarity_lines a) out.new result }
{
    let b = put_float_line(out, at, b"score ", a.score);
    let d = put_float_line(out, b, b"sizesim ", a.sizesim);
    put_float_line(out, d, b"seqsim ", a.seqsim)
}

// Which target matched and how far the search went, three lines.
fn put_reach(out: &mut [u8], at: usize, a: Answer) -> usize
    ensures { Written out.old at (reach_lines a) out.new result }
{
    let target = a.target;
    let b = put_flag_line(out, at, b"full ", is_whole(target));
    let d = put_number_line(out, b, b"scored ", a.scored);
    put_flag_line(out, d, b"complete ", a.complete)
}

// The lines of an accepted answer, with as many rows and records as it counts.
pub(crate) fn put_eight(
    out: &mut [u8],
    at: usize,
    rows: &[u32],
    records: &[u32],
    a: Answer,
) -> usize
    ensures { Written out.old at (eight_lines (take a.rows rows.now) (take a.rows records.now) a) out.new result }
{
    let n = a.rows as usize;
    let b = put_front_line(out, at, b"rows", rows, n);
    let d = put_front_line(out, b, b"records", records, n);
    let e = put_similarities(out, d, a);
    put_reach(out, e, a)
}
