// The refusals that concern record numbers alone.
ghost use Rattle.std.specs.Prelude.{◌≡◌, ◌<◌, eqb, length, get_or};
ghost use Rattle.metrics.specs.Refusals.{told};
ghost use Rattle.params.specs.Numbers.{any_below};
ghost use Rattle.dive.specs.Numbered.{repeated_number};
ghost use Rattle.dive.specs.NumberChecks.{number_fault};

use metrics::refusals::Refusal;

// Whether an earlier variant has the number of variant s. All are asked, in a form that the compiler turns into vector instructions.
fn repeats(numbers: &[u32], s: usize) -> bool
    requires { s < length numbers.now }
    ensures { result ≡ any_below s (λ r. eqb (get_or numbers.now r 0) (get_or numbers.now s 0)) }
{
    let mut found = false;
    for number in &numbers[..s] {
        found |= *number == numbers[s];
    }
    found
}

fn repeated_number(numbers: &[u32]) -> bool
    ensures { result ≡ repeated_number numbers.now }
{
    for s in 0..numbers.len() {
        if repeats(numbers, s) {
            return true;
        }
    }
    false
}

// 6, 14 and 12 of V record numbers and their room for n haplotypes. The numbers are compared each with each, so more than 64 are left to the 5 that comes before,
// and more than 16 haplotypes to the 27.
#[tactic(auto, unfolding(crate::specs::NumberChecks::number_fault), using(params::proofs::CheckLaws::few_in_all))]
pub(crate) fn number_fault(
    v: usize,
    n: usize,
    numbers: &[u32],
    record_room: usize,
) -> Result<(), Refusal>
    ensures { told result ≡ number_fault v n numbers.now record_room }
{
    if v > 64 || n > 16 {
        return Ok(());
    }
    if numbers.len() != v {
        return Err(Refusal::BadLengths);
    }
    if repeated_number(numbers) {
        return Err(Refusal::RepeatedNumber);
    }
    if record_room < v * n {
        return Err(Refusal::AnswerRoom);
    }
    Ok(())
}
