// Words for C and Rust: the settings of a search as fourteen of them, a flag as one, and the length of a text as one.
ghost use Rattle.std.specs.Prelude.{◌≡◌, cond, ◌≤◌, length};
ghost use Rattle.capi.specs.Words.{flag_of_word, settings_of_words};
ghost use Rattle.capi.specs.Held.{byte_held, settings_held};

use fields::float_of;
use params::Settings;

// A byte holds no larger k and no larger `letters` than 255, which is refused as any larger one is.
fn byte_of_word(word: u32) -> u8
    ensures { result ≡ byte_held word }
{
    if 255 < word { 255 } else { word as u8 }
}

fn flag_of_word(word: u32) -> bool
    ensures { result ≡ flag_of_word word }
{
    word != 0
}

pub(crate) fn settings_of_words(words: &[u32; 14]) -> Settings
    ensures { result ≡ settings_held (settings_of_words words.now) }
{
    Settings {
        k: byte_of_word(words[0]),
        squish: flag_of_word(words[1]),
        one_to_one: flag_of_word(words[2]),
        full: flag_of_word(words[3]),
        maxpaths: words[4],
        maxnodes: words[5],
        fnmax: words[6],
        pileupmax: words[7],
        minkfreq: words[8],
        letters: byte_of_word(words[9]),
        sizesim: float_of(words[10]),
        seqsim: float_of(words[11]),
        fpenalty: float_of(words[12]),
        gpenalty: float_of(words[13]),
    }
}

// A yes as 1, a no as 0.
pub(crate) fn word_of_flag(flag: bool) -> u32
    ensures { result ≡ cond flag 1 0 }
{
    if flag { 1 } else { 0 }
}

// It fits, because the text stands in a buffer of this length.
pub(crate) fn length_word(n: usize, text: &[u8]) -> u32
    requires { (n ≤ length text.now) × (length text.now ≤ 8192) }
    ensures { result ≡ n }
{
    n as u32
}
