// Reading values behind their names.
ghost use Rattle.std.specs.Prelude.{◌≡◌, ◌^◌, ◌≤◌, length};
ghost use Rattle.lines.specs.Values as spec;

use crate::digits::{is_hex, number_of};

// Returns the first place from `from` on at which the byte `stop` stands, and the end where there is none.
#[tactic(auto, using(crate::proofs::Reading::ends))]
pub fn value_end(input: &[u8], from: usize, stop: u8) -> usize
    requires { from ≤ length input.now }
    ensures { (result ≡ spec.value_end stop input.now from) × (from ≤ result) × (result ≤ length input.now) }
{
    for i in from..input.len() {
        if input[i] == stop {
            return i;
        }
    }
    input.len()
}

// Returns where the value begins and ends that stands at the place `at` behind its name, up to the byte `stop`; none where the name does not
// stand there.
#[tactic(auto, using(crate::proofs::Reading::behind), unfolding(crate::specs::Values::value_at, octets::specs::Choice::pick))]
pub fn value_at(input: &[u8], at: usize, name: &[u8], stop: u8) -> Option<(usize, usize)>
    requires { 1 ≤ length name.now }
    ensures { (result ≡ spec.value_at input.now at name.now stop) × spec.ValueFits (length input.now) result }
{
    if !input.get(at..)?.starts_with(name) {
        return None;
    }
    let from = at + name.len();
    Some((from, value_end(input, from, stop)))
}

// Returns the number that stands at the place `at` behind its name, up to the byte `stop`, and the place behind that byte; none where the name
// does not stand there, or not `least` to `most` digits of the base.
#[tactic(auto, unfolding(crate::specs::Values::number_at, crate::specs::Values::number_in, crate::specs::Values::before, octets::specs::Choice::pick))]
pub fn number_at(
    input: &[u8],
    at: usize,
    name: &[u8],
    stop: u8,
    base: usize,
    least: usize,
    most: usize,
) -> Option<(usize, usize)>
    requires { spec.NumberAtAsks name.now base most }
    ensures { (result ≡ spec.number_at input.now at name.now stop base least most) × spec.FieldFits (base ^ most) (length input.now) result }
{
    let (from, to) = value_at(input, at, name, stop)?;
    if to - from < least {
        return None;
    }
    if most < to - from {
        return None;
    }
    let n = number_of(&input[from..to], base)?;
    Some((n, to + 1))
}

// Returns where the digits begin and end that stand at the place `at` behind their name, up to the byte `stop`; none where the name does not
// stand there, or not hex digits in pairs, at most `most`.
#[tactic(auto, unfolding(crate::specs::Values::hex_at, crate::specs::Values::hex_in))]
pub fn hex_at(input: &[u8], at: usize, name: &[u8], stop: u8, most: usize) -> Option<(usize, usize)>
    requires { 1 ≤ length name.now }
    ensures { (result ≡ spec.hex_at input.now at name.now stop most) × spec.HexFits input.now most result }
{
    let (from, to) = value_at(input, at, name, stop)?;
    let digits = &input[from..to];
    if most < digits.len() {
        return None;
    }
    if !is_hex(digits) {
        return None;
    }
    Some((from, to))
}
