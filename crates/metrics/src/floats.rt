// The bits of a float, as the job form, the printed text and the exports write it.
ghost use Rattle.metrics.specs.Promises.{BitsOfPromise};

// `f32::to_bits` leaves a NaN's pattern open; here every NaN has one pattern.
pub fn bits_of(x: f32) -> u32
    ensures { BitsOfPromise x result }
{
    if x != x { 2143289344 } else { f32::to_bits(x) }
}
