// Reading a compact script: the command that stands at a place, without card or session.
ghost use Rattle.std.specs.Prelude.{◌≡◌, ◌+◌, ◌≤◌, ◌<◌, length};
ghost use Rattle.compact.specs.Compact as spec;
ghost use Rattle.compact.specs.Promised.{ReadingFits};

use command::instruction::{carries_data, case_of};
use command::{Command, Reading};

// "Five-byte headers"
const HEADER_SIZE: usize = 5;

// Returns the case of a command: 04 and 44 with another P3 than 00 have the form of case 2.
fn compact_case(i: usize, p2: usize, p3: usize) -> usize
    ensures { result ≡ spec.compact_case i p2 p3 }
{
    let case = case_of(i, p2);
    if (case == 1) & !(p3 == 0) {
        return 2;
    }
    case
}

// Returns how many data bytes stand after a header with the instruction `i` and `p3`.
fn data_behind(i: usize, p3: usize) -> usize
    ensures { (result ≡ spec.data_behind i p3) × (result ≤ p3) }
{
    if carries_data(i) {
        return p3;
    }
    0
}

// Returns what stands for a command with too few bytes: one that is not whole, and takes the rest of the script.
fn broken(script: &[u8]) -> Reading
    ensures { result ≡ spec.broken script.now }
{
    let command = Command {
        whole: false,
        class: 0,
        instruction: 0,
        p1: 0,
        p2: 0,
        p3: 0,
        case: 0,
        after: false,
    };
    Reading {
        command,
        from: script.len(),
        size: 0,
    }
}

// Returns the command at the place `at` whose header and `size` data bytes are there.
fn whole_at(script: &[u8], at: usize, i: usize, size: usize) -> Reading
    requires { at + 5 + size ≤ length script.now }
    ensures { result ≡ spec.whole_at script.now at i size }
{
    let p2 = octets::wide(script[at + 3]);
    let p3 = octets::wide(script[at + 4]);
    let command = Command {
        whole: true,
        class: octets::wide(script[at]),
        instruction: i,
        p1: octets::wide(script[at + 2]),
        p2,
        p3,
        case: compact_case(i, p2, p3),
        after: at + HEADER_SIZE + size < script.len(),
    };
    Reading {
        command,
        from: at + HEADER_SIZE,
        size,
    }
}

// Returns the command that stands at the place `at` of a script.
pub fn read_at(script: &[u8], at: usize) -> Reading
    requires { at < length script.now }
    ensures { (result ≡ spec.read_at script.now at) × ReadingFits script.now at result }
{
    if script.len() - at < HEADER_SIZE {
        return broken(script);
    }
    let i = octets::wide(script[at + 1]);
    let size = data_behind(i, octets::wide(script[at + 4]));
    if script.len() - at < HEADER_SIZE + size {
        return broken(script);
    }
    whole_at(script, at, i, size)
}
