// Prints an answer as words of eight hexadecimal digits parted by spaces, a line for each answer.
use crate::list::front;
use kplib::pathscore::Target;
use kplib::traverse::Answer;
use metrics::floats::bits_of;
use std::io;

pub(crate) fn print_answer(rt: &impl Print, a: Answer, rows: &[u32]) -> io::Result<()> {
    let (kind, left_out) = match a.target {
        Target::Nothing => (0, 0),
        Target::Whole => (1, 0),
        Target::Partial(left_out) => (2, left_out),
    };
    let (refusal, count, scored, complete) = (a.refusal, a.rows, a.scored, a.complete as u32);
    let (score, sizesim, seqsim) = (bits_of(a.score), bits_of(a.sizesim), bits_of(a.seqsim));
    print!(rt; "{refusal:08x} {count:08x} {kind:08x} {left_out:08x}")?;
    print!(rt; " {score:08x} {sizesim:08x} {seqsim:08x} {scored:08x} {complete:08x}")?;
    for row in front(rows, count) {
        print!(rt; " {row:08x}")?;
    }
    print!(rt; "\n")
}
