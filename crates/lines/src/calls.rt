// What the lines call a run with.
ghost use Rattle.std.specs.Prelude.{◌≡◌, ◌≤◌, length};
ghost use Rattle.lines.specs.Calls as spec;

use crate::values::number_at;
use engine::Call;

// Returns what a run is called with, three numbers from the place `at` on, the first behind `name`, each up to the byte `stop`, and the place
// behind them; none where others stand there.
#[tactic(auto, unfolding(crate::specs::Calls::call_at, crate::specs::Values::then, crate::specs::Digits::ascii,))]
pub fn call_at(input: &[u8], at: usize, name: &[u8], stop: u8) -> Option<(Call, usize)>
    requires { 1 ≤ length name.now }
    ensures { result ≡ spec.call_at input.now at name.now stop }
{
    let (application, second) = number_at(input, at, name, stop, 10, 1, 3)?;
    let (domain, third) = number_at(input, second, b"domain=", stop, 16, 2, 2)?;
    let (format, next) = number_at(input, third, b"format=", stop, 10, 1, 1)?;
    Some((
        Call {
            application,
            domain: domain as u8,
            format: format as u8,
        },
        next,
    ))
}
