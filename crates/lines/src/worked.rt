// The worked card.
ghost use Rattle.std.specs.Prelude.{◌≡◌, ◌≤◌, length};
ghost use Rattle.engine.specs.Worked.{worked};
ghost use Rattle.lines.specs.Calls as spec;

use crate::digits::decode;
use card::lent::LentCard;
use engine::{Answer, Call};

// How many bytes of response memory the programs lend to a run on the worked card.
pub const LENT_RESPONSE: usize = 1024;

// Returns the table: its seven entries.
fn worked_table() -> [u8; 112]
    ensures { (result ≡ worked.table) × (112 ≡ length result) }
{
    let mut table = [0u8; 112];
    decode(
        b"3F0000010000000000000500000000007F1000020000000000000500000000006F4601040000001100000500000000006F3A01050011000C04000500000000006F390106001D000903000500000000007FFF00030000000000000500000000006F460504002600110000050002000000",
        &mut table,
    );
    table
}

// Returns the file memory: the cyclic file's nine bytes are 00, all others FF.
fn worked_files() -> [u8; 55]
    ensures { (result ≡ worked.files) × (55 ≡ length result) }
{
    let mut files = [0xFFu8; 55];
    files[29..38].fill(0x00);
    files
}

// Runs a script on the worked card with a journal in place of its own. Returns the number, the answer's length and the count of commands; the
// answer is at the start of `response`.
pub fn run_on_worked(call: Call, script: &[u8], response: &mut [u8], journal: &mut [u8]) -> Answer
    ensures answer { result ≡ (spec.run_on_worked call script.now response.old journal.old).answer }
    ensures response { response.new ≡ (spec.run_on_worked call script.now response.old journal.old).response }
    ensures journal { journal.new ≡ (spec.run_on_worked call script.now response.old journal.old).card.journal }
    ensures length { result.length ≤ length response.old }
{
    let mut table = worked_table();
    let mut files = worked_files();
    let mut card = LentCard {
        table: &mut table,
        files: &mut files,
        journal,
    };
    Answer::from(engine::run(call, script, response, &mut card))
}
