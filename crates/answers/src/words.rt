// The words that the engine can give, and a word that is read byte by byte.
ghost use Rattle.std.specs.Prelude.{◌≡◌};
ghost use Rattle.answers.specs.Words as spec;

// The words of a compact answer, of an R-APDU without data, and of one with data.
#[derive(Clone, Copy)]
pub enum Words {
    Compact,
    Expanded,
    WithData,
}

// Returns whether data can stand with a word.
pub(crate) fn has_data(word: usize) -> bool
    ensures { result ≡ spec.has_data word }
{
    matches!(word, 0x9000 | 0x6282 | 0x6283)
}

// Returns whether a word is one of both formats.
#[tactic(auto, using(octets::proofs::Picks::choices), unfolding(crate::specs::Words::is_common))]
fn is_common(word: usize) -> bool
    ensures { result ≡ spec.is_common word }
{
    has_data(word)
        | matches!(
            word,
            0x6581
                | 0x6700
                | 0x6981
                | 0x6982
                | 0x6984
                | 0x6985
                | 0x6986
                | 0x6A82
                | 0x6A83
                | 0x6A86
                | 0x6B00
                | 0x6D00
                | 0x6E00
                | 0x9850
        )
}

// Returns whether a word is one of `words`.
#[tactic(auto, unfolding(crate::specs::Words::is_word))]
fn is_word(words: Words, word: usize) -> bool
    ensures { result ≡ spec.is_word words word }
{
    match words {
        Words::Compact => is_common(word) | matches!(word, 0x6101..=0x61FF),
        Words::Expanded => is_common(word) | (word == 0x6F00),
        Words::WithData => has_data(word),
    }
}

// Returns whether a word of both formats begins with a byte.
#[tactic(auto, unfolding(crate::specs::Words::begins_common))]
fn begins_common(b: usize) -> bool
    ensures { result ≡ spec.begins_common b }
{
    matches!(
        b,
        0x90 | 0x62 | 0x65 | 0x67 | 0x69 | 0x6A | 0x6B | 0x6D | 0x6E | 0x98
    )
}

// Returns whether one of `words` begins with a byte.
#[tactic(auto, unfolding(crate::specs::Words::begins_word))]
fn begins_word(words: Words, b: usize) -> bool
    ensures { result ≡ spec.begins_word words b }
{
    match words {
        Words::Compact => begins_common(b) | (b == 0x61),
        Words::Expanded => begins_common(b) | (b == 0x6F),
        Words::WithData => matches!(b, 0x90 | 0x62),
    }
}

// Returns the word of `words` that stands at the place `at`, byte by byte; or the place where its reading stops.
#[tactic(auto, using(octets::proofs::Picks::choices), unfolding(crate::specs::Words::word_at))]
fn spelled_at(words: Words, answer: &[u8], at: usize) -> Result<usize, usize>
    ensures { result ≡ spec.word_at words answer.now at }
{
    if answer.len() <= at {
        return Err(answer.len());
    }
    if !begins_word(words, octets::wide(answer[at])) {
        return Err(at);
    }
    if answer.len() <= at + 1 {
        return Err(answer.len());
    }
    let word = octets::num_at(answer, at);
    if is_word(words, word) {
        return Ok(word);
    }
    Err(at + 1)
}

// The same: most often it is a word that data can stand with, and each of `words` has those.
#[tactic(auto, using(octets::proofs::Picks::choices, crate::proofs::WithData::data_word), unfolding(crate::specs::Words::word_at))]
pub(crate) fn word_at(words: Words, answer: &[u8], at: usize) -> Result<usize, usize>
    ensures { result ≡ spec.word_at words answer.now at }
{
    if answer.len() <= at {
        return Err(answer.len());
    }
    if answer.len() - at < 2 {
        return spelled_at(words, answer, at);
    }
    let word = octets::num_at(answer, at);
    if has_data(word) {
        return Ok(word);
    }
    spelled_at(words, answer, at)
}
