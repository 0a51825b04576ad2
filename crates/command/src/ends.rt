// What an outcome stands for: the paper's word, whether the script goes on, and the data.
ghost use Rattle.std.specs.Prelude.{◌≡◌, ◌+◌, ◌≤◌, length, take};
ghost use Rattle.octets.specs.Bytes.{part, overwrite};
ghost use Rattle.command.specs.Outcomes as spec;
ghost use Rattle.command.specs.Promised.{OutcomeFits};

use crate::Outcome;
use crate::checks::check_word;

// "9000, 6282, 6283 and 61xx go on"
pub const NORMAL: usize = 0x9000;

pub const END_OF_DATA: usize = 0x6282;

pub const SELECTED_DEACTIVATED: usize = 0x6283;

pub const BYTES_WAIT: usize = 0x6100;

const MOST_BYTES_WAIT: usize = 0x61FF;

// Returns the word of an outcome.
pub fn word_of(o: Outcome) -> usize
    ensures { result ≡ spec.word_of o }
{
    match o {
        Outcome::Well(word) | Outcome::FromFiles(word, _, _) | Outcome::FromWaiting(word, _) =>
            word,
        Outcome::Error(k) => check_word(k),
    }
}

// Returns how many data bytes an outcome has.
pub fn data_count(o: Outcome) -> usize
    ensures { result ≡ spec.data_count o }
{
    match o {
        Outcome::Well(_) | Outcome::Error(_) => 0,
        Outcome::FromFiles(_, _, n) => n,
        Outcome::FromWaiting(_, n) => n,
    }
}

// Returns whether a script goes on after a word.
pub fn goes_on(word: usize) -> bool
    ensures { result ≡ spec.goes_on word }
{
    matches!(
        word,
        NORMAL | END_OF_DATA | SELECTED_DEACTIVATED | BYTES_WAIT..=MOST_BYTES_WAIT
    )
}

// Returns data that are a part of the file memory: its n bytes from a place on.
fn from_files<'f, 'w>(files: &'f [u8], waiting: &'w [u8], place: usize, n: usize) -> &'f [u8]
    requires { place + n ≤ length files.now }
    ensures { result.now ≡ part files.now place n }
{
    &files[place..place + n]
}

// Returns data that are the first n waiting bytes.
fn from_waiting<'f, 'w>(files: &'f [u8], waiting: &'w [u8], n: usize) -> &'w [u8]
    requires { n ≤ length waiting.now }
    ensures { result.now ≡ take n waiting.now }
{
    &waiting[..n]
}

// Writes the data of an outcome at the place `at`, and returns the place after them.
#[tactic(auto, unfolding(crate::specs::Outcomes::data_of, crate::specs::Promised::OutcomeFits))]
pub fn put_data(out: &mut [u8], at: usize, o: Outcome, files: &[u8], waiting: &[u8; 255]) -> usize
    requires { OutcomeFits (length files.now) o × (at + spec.data_count o ≤ length out.old) }
    ensures { (out.new ≡ overwrite out.old at (spec.data_of o files.now waiting.now)) × (result ≡ at + spec.data_count o) }
{
    match o {
        Outcome::Well(_) => at,
        Outcome::FromFiles(_, place, n) => {
            octets::copy(out, at, from_files(files, waiting, place, n));
            at + n
        }
        Outcome::FromWaiting(_, n) => {
            octets::copy(out, at, from_waiting(files, waiting, n));
            at + n
        }
        Outcome::Error(_) => at,
    }
}
