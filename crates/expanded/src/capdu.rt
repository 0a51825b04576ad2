// The command that a C-APDU is.
ghost use Rattle.std.specs.Prelude.{◌≡◌, ◌+◌, ◌≤◌, ◌<◌, length};
ghost use Rattle.octets.specs.Bytes.{byte};
ghost use Rattle.expanded.specs.Capdu as spec;
ghost use Rattle.expanded.specs.Promised.{CapduFits};

use command::{Command, Reading};

// Returns the byte after the header: P3, Le or Lc; 0 where there is none.
fn fifth(capdu: &[u8]) -> usize
    ensures { (result ≡ byte capdu.now 4) × (result < 256) }
{
    if 4 < capdu.len() {
        return octets::wide(capdu[4]);
    }
    0
}

// Returns the case of a C-APDU by its size, and 0 for no case's size: that number is what the command has for it.
fn case_by_size(capdu: &[u8]) -> usize
    requires { 4 ≤ length capdu.now }
    ensures { (result ≡ spec.case_by_size capdu.now) × (3 ≤ result → 5 + byte capdu.now 4 ≤ length capdu.now) }
{
    let size = capdu.len();
    let lc = fifth(capdu);
    if size == 4 {
        return 1;
    }
    if size == 5 {
        return 2;
    }
    if size == 5 + lc {
        return 3;
    }
    if (size == 6 + lc) & (capdu[size - 1] == 0) {
        return 4;
    }
    0
}

// Returns the command that a C-APDU is, and where its data lie in it.
pub fn command_of(capdu: &[u8]) -> Reading
    requires { 4 ≤ length capdu.now }
    ensures { (result ≡ spec.capdu_command capdu.now) × CapduFits capdu.now result }
{
    let case = case_by_size(capdu);
    let command = Command {
        whole: 1 <= case,
        class: octets::wide(capdu[0]),
        instruction: octets::wide(capdu[1]),
        p1: octets::wide(capdu[2]),
        p2: octets::wide(capdu[3]),
        p3: fifth(capdu),
        case,
        after: false,
    };
    if 3 <= case {
        return Reading {
            command,
            from: 5,
            size: fifth(capdu),
        };
    }
    Reading {
        command,
        from: 4,
        size: 0,
    }
}
