// The data as 28 words for C and for lists of data: id, samples, flags, 8 coverages, 8 phase sets, 8 tags, and a 0.
ghost use Rattle.std.specs.Prelude.{◌≡◌, ◌+◌, ◌≤◌, length};
ghost use Rattle.meta.specs.Words.{eight_at, meta_of_words};
ghost use Rattle.meta.specs.Promises.{MetaOfWordsPromise, WordsOfMetaPromise};

use crate::HaplotypeMeta;

// The eight from a place on.
fn eight_at(words: &[u64], at: usize) -> [u64; 8]
    requires { at + 8 ≤ length words.now }
    ensures { result ≡ eight_at words.now at }
{
    let mut eight = [0; 8];
    eight.copy_from_slice(&words[at..at + 8]);
    eight
}

// The last word is not looked at.
pub(crate) fn meta_of_slice(words: &[u64]) -> HaplotypeMeta
    requires { length words.now ≡ 28 }
    ensures { result ≡ meta_of_words words.now }
{
    HaplotypeMeta {
        id: words[0],
        samples: words[1],
        samples_flag: words[2],
        coverage: eight_at(words, 3),
        ps: eight_at(words, 11),
        hp: eight_at(words, 19),
    }
}

pub fn meta_of_words(words: &[u64; 28]) -> HaplotypeMeta
    ensures { MetaOfWordsPromise words.now result }
{
    meta_of_slice(words)
}

pub fn words_of_meta(meta: HaplotypeMeta) -> [u64; 28]
    ensures { WordsOfMetaPromise meta result }
{
    let mut words = [0; 28];
    words[19..27].copy_from_slice(&meta.hp);
    words[11..19].copy_from_slice(&meta.ps);
    words[3..11].copy_from_slice(&meta.coverage);
    words[..3].copy_from_slice(&[meta.id, meta.samples, meta.samples_flag]);
    words
}
