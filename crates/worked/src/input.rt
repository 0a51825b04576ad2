// Reading the four lines.
ghost use Rattle.std.specs.Prelude.{◌≡◌};
ghost use Rattle.worked.specs.Input as spec;

use engine::Call;
use lines::calls::call_at;
use lines::values::hex_at;

// "0 to 16,384 hex digits"
pub const MOST_DIGITS: usize = 16384;

// What the input asks for: what a run is called with, and where the script's digits begin and end in the input.
#[derive(Clone, Copy)]
pub struct Asked {
    pub call: Call,
    pub from: usize,
    pub to: usize,
}

// Returns what the four lines ask for, read in their order; none where the input has another shape.
#[tactic(auto, unfolding(crate::specs::Input::input_of, crate::specs::Input::script_at, crate::specs::Input::script_in, lines::specs::Values::then, lines::specs::Digits::ascii, octets::specs::Choice::pick,))]
pub fn input_of(input: &[u8]) -> Option<Asked>
    ensures { (result ≡ spec.input_of input.now) × spec.InputFits input.now result }
{
    let (call, fourth) = call_at(input, 0, b"application=", b'\n')?;
    let (from, to) = hex_at(input, fourth, b"script=", b'\n', MOST_DIGITS)?;
    if to + 1 < input.len() {
        return None;
    }
    Some(Asked { call, from, to })
}
