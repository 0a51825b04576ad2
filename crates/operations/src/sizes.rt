// How many bytes an operation and a whole script take.
ghost use Rattle.std.specs.Prelude.{◌≡◌, ◌+◌, ◌<◌};
ghost use Rattle.octets.specs.Bytes.{InWord};
ghost use Rattle.operations.specs.Carried.{number_of};
ghost use Rattle.operations.specs.Scripts.{has_le};
ghost use Rattle.operations.specs.Sizes as spec;

use crate::rows::{INCREASE, Operation, SEARCH, is_read};
use command::Format;
use tlv::lengths::length_size;

// The bytes of a header.
pub const HEADER_SIZE: usize = 5;

// Returns whether a kind of operation has an Le behind its bytes: INCREASE and SEARCH do.
pub fn has_le(kind: usize) -> bool
    ensures { result ≡ has_le kind }
{
    (kind == INCREASE) | (kind == SEARCH)
}

// Returns how many bytes an operation's command takes in a compact script.
#[tactic(auto, using(octets::proofs::Picks::choices), unfolding(crate::specs::Sizes::compact_size))]
pub fn compact_size(o: Operation) -> usize
    requires { o.count < 65536 }
    ensures { result ≡ spec.compact_size o }
{
    if is_read(o.kind) {
        return HEADER_SIZE;
    }
    HEADER_SIZE + o.count
}

// Returns how many bytes an operation's C-APDU has.
#[tactic(auto, using(octets::proofs::Picks::choices, crate::proofs::Counted::compact_within), unfolding(crate::specs::Sizes::capdu_size))]
pub fn capdu_size(o: Operation) -> usize
    requires { o.count < 65536 }
    ensures { result ≡ spec.capdu_size o }
{
    if has_le(o.kind) {
        return compact_size(o) + 1;
    }
    compact_size(o)
}

// Returns how many bytes a value takes with its tag and its length.
#[tactic(auto, unfolding(crate::specs::Sizes::tlv_size))]
fn tlv_size(n: usize) -> usize
    requires { InWord (n + 4) }
    ensures { result ≡ spec.tlv_size n }
{
    1 + length_size(n) + n
}

// Returns how many bytes an operation takes in a script of a format.
#[tactic(auto, using(octets::proofs::Picks::choices, crate::proofs::Counted::capdu_within), unfolding(crate::specs::Sizes::written_size))]
pub fn written_size(format: Format, o: Operation) -> usize
    requires { o.count < 65536 }
    ensures { result ≡ spec.written_size (number_of format) o }
{
    match format {
        Format::Compact => compact_size(o),
        Format::Expanded => tlv_size(capdu_size(o)),
    }
}

// Returns how many bytes the script has whose operations take `n`.
#[tactic(auto, using(octets::proofs::Picks::choices), unfolding(crate::specs::Sizes::script_size))]
pub fn script_size(format: Format, n: usize) -> usize
    requires { InWord (n + 4) }
    ensures { result ≡ spec.script_size (number_of format) n }
{
    match format {
        Format::Compact => n,
        Format::Expanded => tlv_size(n),
    }
}
