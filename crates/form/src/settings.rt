// The body of a settings record, of 40 bytes and of edition 2's 41.
ghost use Rattle.std.specs.Prelude.{◌≡◌, ◌<◌, ◌+◌, ◌^◌};
ghost use Rattle.std.proofs.lemmas.List.Edits.{sets};
ghost use Rattle.form.specs.Settings40.{number_bytes, float_bytes};
ghost use Rattle.form.specs.Promises.{ReadSettingsPromise, WriteSettingsPromise, ReadSettings41Promise, WriteSettings41Promise, SettingsByPromise, Settings41FaultPromise};

use crate::records::{Edition, LETTERS_PLACE, are_flags};
use fields::{float_of, put_u8, put_u32, u8_at, u32_at};
use metrics::floats::bits_of;
use metrics::refusals::Refusal;
use params::Settings;
use params::graphparams::settings_fault;

// The settings that b begins with. The 40 bytes have no place for `letters`: they are 0.
#[tactic(auto, unfolding(crate::specs::Settings40::settings_in))]
pub fn read_settings(b: &[u8]) -> Settings
    ensures { ReadSettingsPromise b.now result }
{
    Settings {
        k: u8_at(b, 0),
        squish: u8_at(b, 1) == 1,
        one_to_one: u8_at(b, 2) == 1,
        full: u8_at(b, 3) == 1,
        maxpaths: u32_at(b, 4),
        maxnodes: u32_at(b, 8),
        fnmax: u32_at(b, 12),
        pileupmax: u32_at(b, 16),
        minkfreq: u32_at(b, 20),
        letters: 0,
        sizesim: float_of(u32_at(b, 24)),
        seqsim: float_of(u32_at(b, 28)),
        fpenalty: float_of(u32_at(b, 32)),
        gpenalty: float_of(u32_at(b, 36)),
    }
}

// The settings of edition 2 that b begins with: the old 40 bytes and then `letters`.
#[tactic(auto, unfolding(crate::specs::Settings41::settings41_in))]
pub fn read_settings41(b: &[u8]) -> Settings
    ensures { ReadSettings41Promise b.now result }
{
    Settings {
        letters: u8_at(b, LETTERS_PLACE),
        ..read_settings(b)
    }
}

// The settings that b begins with, in an edition.
#[tactic(auto, unfolding(crate::specs::Job::settings_by))]
pub fn settings_by(edition: Edition, b: &[u8]) -> Settings
    ensures { SettingsByPromise edition b.now result }
{
    match edition {
        Edition::One => read_settings(b),
        Edition::Two => read_settings41(b),
    }
}

// Their first refusal: 24, then 1 to 3.
#[tactic(auto, unfolding(crate::specs::Settings41::settings41_fault))]
pub fn settings41_fault(b: &[u8]) -> Result<(), Refusal>
    ensures { Settings41FaultPromise b.now result }
{
    if !(are_flags(b, 1, 3) && are_flags(b, LETTERS_PLACE, 1)) {
        return Err(Refusal::BadFlag);
    }
    settings_fault(read_settings41(b))
}

fn write_numbers(out: &mut [u8], at: usize, s: Settings)
    requires { at + 20 < 2 ^ 64 }
    ensures { out.new ≡ sets out.old at (number_bytes s) }
{
    put_u32(out, at, s.maxpaths);
    put_u32(out, at + 4, s.maxnodes);
    put_u32(out, at + 8, s.fnmax);
    put_u32(out, at + 12, s.pileupmax);
    put_u32(out, at + 16, s.minkfreq);
}

fn write_floats(out: &mut [u8], at: usize, s: Settings)
    requires { at + 16 < 2 ^ 64 }
    ensures { out.new ≡ sets out.old at (float_bytes s) }
{
    put_u32(out, at, bits_of(s.sizesim));
    put_u32(out, at + 4, bits_of(s.seqsim));
    put_u32(out, at + 8, bits_of(s.fpenalty));
    put_u32(out, at + 12, bits_of(s.gpenalty));
}

// The settings from position `at` on, as far as there is room. There is no place for `letters`.
pub fn write_settings(out: &mut [u8], at: usize, s: Settings)
    ensures { WriteSettingsPromise out.old at s out.new }
{
    if out.len() <= at {
        return;
    }
    put_u8(out, at, s.k);
    put_u8(out, at + 1, s.squish as u8);
    put_u8(out, at + 2, s.one_to_one as u8);
    put_u8(out, at + 3, s.full as u8);
    write_numbers(out, at + 4, s);
    write_floats(out, at + 24, s);
}

// Edition 2's settings from position `at` on, as far as there is room.
pub fn write_settings41(out: &mut [u8], at: usize, s: Settings)
    ensures { WriteSettings41Promise out.old at s out.new }
{
    if out.len() <= at {
        return;
    }
    write_settings(out, at, s);
    put_u8(out, at + LETTERS_PLACE, s.letters);
}
