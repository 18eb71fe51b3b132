// The order of the table of refusals, for two refusals that were found apart.
ghost use Rattle.std.specs.Prelude.{◌≡◌};
ghost use Rattle.params.specs.TableOrder.{right_before, place_of};
ghost use Rattle.params.specs.Promises.{EarlierPromise, FirstInTablePromise};

use metrics::refusals::{ACCEPTED, Refusal, told};

// Where a number stands in the table: each has a place, and right before it is one more, in which 27, 14 and 16 stand.
fn right_before(n: u32) -> u64
    ensures { result ≡ right_before n }
{
    2 * (n as u64)
}

fn place_of(n: u32) -> u64
    ensures { result ≡ place_of n }
{
    if n == Refusal::TooManyHaplotypes as u32 {
        return right_before(Refusal::TooMany as u32);
    }
    if n == Refusal::RepeatedNumber as u32 {
        return right_before(Refusal::BadSize as u32);
    }
    if n == Refusal::EmptyRow as u32 {
        return right_before(Refusal::QueueRoom as u32);
    }
    2 * (n as u64) + 1
}

// The first in the table of two refusals, as numbers: another one, or 0 where there is none, and an own one, which who asks has.
#[tactic(auto, unfolding(crate::specs::TableOrder::earlier_of))]
pub fn earlier(other: u32, own: u32) -> u32
    ensures { EarlierPromise other own result }
{
    if other == ACCEPTED {
        return own;
    }
    if place_of(other) < place_of(own) {
        return other;
    }
    own
}

// The first in the table of what two checks found apart.
#[tactic(auto, unfolding(crate::specs::TableOrder::earlier_of))]
pub fn first_in_table(other: Result<(), Refusal>, own: Result<(), Refusal>) -> Result<(), Refusal>
    ensures { FirstInTablePromise other own result }
{
    let Err(refusal) = own else {
        return other;
    };
    if earlier(told(other), refusal.into()) == told(other) {
        other
    } else {
        own
    }
}
