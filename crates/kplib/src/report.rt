// The report of a call: an answer as seven numbers, and with its refusal before them as eight.
ghost use Rattle.std.specs.Prelude.{◌≡◌, length};
ghost use Rattle.kplib.specs.Report.{target_number};
ghost use Rattle.kplib.specs.Haplotypes.{report_words};
ghost use Rattle.kplib.specs.Promises.{PutReportPromise};

use crate::pathscore::Target;
use crate::traverse::Answer;
use metrics::floats::bits_of;

// No answer leaves out more than 64 parts; a target that did is told by the largest word.
fn target_number(target: Target) -> u32
    ensures { result ≡ target_number target }
{
    match target {
        Target::Nothing => 0,
        Target::Whole => 1,
        Target::Partial(left) => left.saturating_add(1),
    }
}

// The refusal and the seven words of an answer.
fn report_words(answer: Answer) -> [u32; 8]
    ensures { result ≡ report_words answer }
{
    [
        answer.refusal,
        answer.rows,
        target_number(answer.target),
        bits_of(answer.score),
        bits_of(answer.sizesim),
        bits_of(answer.seqsim),
        answer.scored,
        answer.complete as u32,
    ]
}

pub fn put_report(answer: Answer, report: &mut [u32; 7])
    ensures { PutReportPromise answer report.old report.new }
{
    report.copy_from_slice(&report_words(answer)[1..]);
}

// A haplotype's report in its stretch of eight.
pub(crate) fn put_words(answer: Answer, report: &mut [u32])
    requires { length report.old ≡ 8 }
    ensures { report.new ≡ report_words answer }
{
    report.copy_from_slice(&report_words(answer));
}
