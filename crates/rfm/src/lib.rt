// The C boundary: the three calls over numbers and slices alone, as include/rfm.h declares them.
#![tactic(auto)]

ghost use Rattle.std.specs.Prelude.{◌≡◌, []};
ghost use Rattle.card.specs.Row.{lent};
ghost use Rattle.engine.specs.Calls as calls;
ghost use Rattle.engine.specs.Numbers.{answer_of};
ghost use Rattle.rfm.specs.Packed.{packed_answer, crosses, across};
ghost use Rattle.engine.specs.Promised.{AnswerFits};

use boundary::packed;
use card::lent::LentCard;
use engine::{Answer, Call, Done, Refused};

// Returns what a call gives in one number.
fn packed_answer(given: Result<Done, Refused>) -> u64
    requires { AnswerFits (answer_of given) }
    ensures { result ≡ packed_answer (answer_of given) }
{
    let answer = Answer::from(given);
    packed(answer.number, answer.count, answer.length)
}

// Runs a script, with its answer at the front of `response`. Returns the call's number, count and length in one number.
#[unsafe(no_mangle)]
pub extern "C" fn rfm_run(
    table: &mut [u8],
    files: &mut [u8],
    journal: &mut [u8],
    application: usize,
    domain: u8,
    format: u8,
    script: &[u8],
    response: &mut [u8],
) -> u64
    ensures { crosses result (lent table.new files.new journal.new) response.new
        ≡ across (calls.run (record { application = application; domain = domain; format = format; script = script.now; response = response.old })
        (lent table.old files.old journal.old)) }
{
    let call = Call {
        application,
        domain,
        format,
    };
    let mut card = LentCard {
        table,
        files,
        journal,
    };
    packed_answer(engine::run(call, script, response, &mut card))
}

// Takes the newest script back. Returns the call's number, count and length in one number.
#[unsafe(no_mangle)]
pub extern "C" fn rfm_take_back(table: &mut [u8], files: &mut [u8], journal: &mut [u8]) -> u64
    ensures { crosses result (lent table.new files.new journal.new) [] ≡ across (calls.take_back (lent table.old files.old journal.old)) }
{
    let mut card = LentCard {
        table,
        files,
        journal,
    };
    packed_answer(engine::take_back(&mut card))
}

// Confirms all scripts. Returns the call's number, count and length in one number.
#[unsafe(no_mangle)]
pub extern "C" fn rfm_confirm(table: &[u8], files: &[u8], journal: &mut [u8]) -> u64
    ensures { crosses result (lent table.now files.now journal.new) [] ≡ across (calls.confirm (lent table.now files.now journal.old)) }
{
    packed_answer(engine::confirm(table, files, journal))
}
