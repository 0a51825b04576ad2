// Doing what was decided: the one function that stores into a card while a script runs.
ghost use Rattle.std.specs.Prelude.{◌≡◌, ◌+◌, ◌<◌, length};
ghost use Rattle.card.specs.Lent.{StaysLent, held};
ghost use Rattle.journal.specs.Changes as changes;
ghost use Rattle.session.specs.Session.{session_of};
ghost use Rattle.step.specs.Steps.{carried_out, moved_to};
ghost use Rattle.plan.specs.Promised.{record_writes, writes_of, plan_of};
ghost use Rattle.step.specs.Promised.{WriteRecordAsks, PerformAsks};

use card::lent::LentCard;
use command::Outcome;
use journal::read::head_of;
use journal::write::write;
use journal::{Head, Memory};
use plan::{Change, Decision, NewRecord};
use session::Standing;

// Writes a new record of a cyclic file: its bytes at the oldest place, then the newest place.
fn write_record(card: &mut LentCard<'_>, head: Head, r: NewRecord, new: &[u8])
    requires { WriteRecordAsks (held card.old) head r new.now }
    ensures written { held card.new ≡ changes.perform (record_writes r new.now) (held card.old) }
    ensures stays { StaysLent card.old card.new }
{
    let place = r.place;
    let next = write(
        card.files,
        card.journal,
        head,
        Memory::Files,
        r.start,
        r.size,
        r.record_length * place,
        new,
    );
    let newest = [place as u8];
    write(
        card.table,
        card.journal,
        next,
        Memory::Table,
        card::place_of_newest(r.entry),
        1,
        0,
        &newest,
    );
}

// Does a change, with the command's data and what it made.
pub fn perform(change: Change, data: &[u8], made: &[u8; 255], card: &mut LentCard<'_>)
    requires { PerformAsks (held card.old) change «data».now made.now }
    ensures performed { held card.new ≡ changes.perform (writes_of change «data».now made.now) (held card.old) }
    ensures stays { StaysLent card.old card.new }
{
    let journal = &mut *card.journal;
    let head = head_of(journal);
    match change {
        Change::Nothing => {}
        Change::Content(start, size, offset) => {
            write(
                card.files,
                card.journal,
                head,
                Memory::Files,
                start,
                size,
                offset,
                data,
            );
        }
        Change::DataRecord(r) => write_record(card, head, r, data),
        Change::SumRecord(r) => {
            let n = r.record_length;
            write_record(card, head, r, &made[..n]);
        }
        Change::TableByte(place, new) => {
            let byte = [new as u8];
            write(
                card.table,
                card.journal,
                head,
                Memory::Table,
                place,
                1,
                0,
                &byte,
            );
        }
    }
}

// "A command ends well, with or without data, or with an error word": where the session stands after a command, how the command ended, and
// how many there were with it. The session's waiting bytes are lent beside it.
#[derive(Clone, Copy)]
pub struct Done {
    pub standing: Standing,
    pub outcome: Outcome,
    pub count: usize,
}

// Does a decision, after `count` commands, and puts what the command made to the front of the waiting bytes. Returns where the script
// stands after the command, how the command ended, and the count with it.
pub fn carry_out(
    d: Decision,
    count: usize,
    data: &[u8],
    made: &[u8; 255],
    waiting: &mut [u8; 255],
    card: &mut LentCard<'_>,
) -> Done
    requires { PerformAsks (held card.old) d.change «data».now made.now × (count < 65535) }
    ensures done { (moved_to (session_of result.standing waiting.new) result.outcome (held card.new)
        ≡ carried_out (plan_of d «data».now made.now) waiting.old (held card.old))
        × (result.count ≡ count + 1) }
    ensures stays { StaysLent card.old card.new }
{
    let n = d.made as usize;
    perform(d.change, data, made, card);
    octets::copy(waiting, 0, &made[..n]);
    Done {
        standing: d.session,
        outcome: d.outcome,
        count: count + 1,
    }
}
