// The text that the program prints, stored in a lent slice from a place on. What does not fit is not written. Each returns the place behind.
#![tactic(auto)]

mod lines;
pub mod pieces;

ghost use Rattle.text.specs.Promises.{PutRefusedPromise, PutHapPromise, PutAnswerPromise};

use crate::lines::{put_eight, put_number_line};
use kplib::traverse::Answer;

// `refused N`.
pub fn put_refused(out: &mut [u8], at: usize, n: u32) -> usize
    ensures { PutRefusedPromise out.old at n out.new result }
{
    put_number_line(out, at, b"refused ", n)
}

// `hap i`: the lines behind it answer haplotype i of several.
pub fn put_hap(out: &mut [u8], at: usize, i: u32) -> usize
    ensures { PutHapPromise out.old at i out.new result }
{
    put_number_line(out, at, b"hap ", i)
}

// `refused N`, or the eight lines of an answer whose rows stand at the front of `rows` and their record numbers at that of `records`.
pub fn put_answer(out: &mut [u8], at: usize, rows: &[u32], records: &[u32], a: Answer) -> usize
    ensures { PutAnswerPromise out.old at rows.now records.now a out.new result }
{
    if a.refusal != 0 {
        return put_refused(out, at, a.refusal);
    }
    put_eight(out, at, rows, records, a)
}
