// One job in, its lines of text out, in fixed memory: what the program does.
#![tactic(auto)]

mod blocks;
mod features;
mod memory;
mod room;
mod stretches;

ghost use Rattle.desk.specs.Promises.{AnswerPromise};

use crate::memory::answer_read;
use metrics::refusals::Refusal;
use text::put_refused;

// The text for a job's bytes, at the front of `out`. Returns how long it is.
pub fn answer(input: &[u8], out: &mut [u8; 8192]) -> usize
    ensures { AnswerPromise input.now out.old out.new result }
{
    if 32768 < input.len() {
        return put_refused(out, 0, Refusal::TooLarge.into());
    }
    answer_read(input, out)
}
