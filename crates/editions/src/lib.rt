// Moves a job from one edition of the form to the other (document 02, P7), and back exactly when that loses nothing.
#![tactic(auto)]

mod walk;

ghost use Rattle.std.specs.Prelude.{◌≡◌, length};
ghost use Rattle.metrics.specs.Refusals.{told};
ghost use Rattle.params.specs.Numbers.{first_of};
ghost use Rattle.form.specs.Job.{edition_of, job_of, read_job, Held};
ghost use Rattle.form.specs.declared.records.Edition.TheVariants.{One, Two};
ghost use Rattle.editions.specs.Moving.{other_edition, moving_rules};
ghost use Rattle.editions.specs.Promises.{MoveJobPromise};

use crate::walk::{lay_records, off_row};
use form::records::{Edition, LETTERS_PLACE, edition_of};
use form::scan;
use metrics::refusals::Refusal;

// as many rows as the 32 bits of a record number tell apart
const MOST_ROWS: usize = 4294967296;
// what edition 2 has more: a byte in the settings, a record number in each variant
const LETTERS_SIZE: usize = 1;

const NUMBER_SIZE: usize = 4;

fn other_edition(edition: Edition) -> Edition
    ensures { result ≡ other_edition edition }
{
    match edition {
        Edition::One => Edition::Two,
        Edition::Two => Edition::One,
    }
}

// Of a job in edition 1.
fn up_fault(job: &[u8], edition: u32, variants: usize, room: usize) -> Result<(), Refusal>
    requires { (read_job job.now ≡ Held (job_of job.now)) × (edition_of job.now ≡ One) × (variants ≡ length (job_of job.now).variants) }
    ensures { told result ≡ first_of (moving_rules edition job.now room) }
{
    if edition != 2 {
        return Err(Refusal::OutOfPlace);
    }
    if MOST_ROWS < variants {
        return Err(Refusal::LittleRoom);
    }
    if room < job.len() + (LETTERS_SIZE + NUMBER_SIZE * variants) {
        return Err(Refusal::LittleRoom);
    }
    Ok(())
}

// Of a job in edition 2.
fn down_fault(job: &[u8], edition: u32, variants: usize, room: usize) -> Result<(), Refusal>
    requires { (read_job job.now ≡ Held (job_of job.now)) × (edition_of job.now ≡ Two) × (variants ≡ length (job_of job.now).variants) }
    ensures { told result ≡ first_of (moving_rules edition job.now room) }
{
    if edition != 1 {
        return Err(Refusal::OutOfPlace);
    }
    if off_row(job) {
        return Err(Refusal::NumberNotRow);
    }
    if job[1 + LETTERS_PLACE] == 1 {
        return Err(Refusal::LettersOne);
    }
    if MOST_ROWS < variants {
        return Err(Refusal::LittleRoom);
    }
    if room < job.len() - (LETTERS_SIZE + NUMBER_SIZE * variants) {
        return Err(Refusal::LittleRoom);
    }
    Ok(())
}

fn moving_fault(job: &[u8], edition: u32, variants: usize, room: usize) -> Result<(), Refusal>
    requires { (read_job job.now ≡ Held (job_of job.now)) × (variants ≡ length (job_of job.now).variants) }
    ensures { told result ≡ first_of (moving_rules edition job.now room) }
{
    let from = edition_of(job);
    match from {
        Edition::One => up_fault(job, edition, variants, room),
        Edition::Two => down_fault(job, edition, variants, room),
    }
}

// A job's bytes in the edition asked for, 1 or 2, at the front of `out`, and how many they are. Nothing is changed on a refusal.
pub fn move_job(job: &[u8], edition: u32, out: &mut [u8]) -> Result<usize, Refusal>
    ensures { MoveJobPromise job.now edition out.old out.new result }
{
    let counts = scan(job)?;
    moving_fault(job, edition, counts.variants, out.len())?;
    Ok(lay_records(job, other_edition(edition_of(job)), out))
}
