// What each instruction does where its checks hold, before anything is stored. What it makes is put at the start of lent bytes.
ghost use Rattle.std.specs.Prelude.{◌≡◌, List, ℕ, ◌≤◌, ◌<◌, length};
ghost use Rattle.octets.specs.Bytes.{part};
ghost use Rattle.card.specs.Row.{place_of_newest, place_of_state};
ghost use Rattle.card.specs.Promised.{RowFits, RecordOffsetAsks};
ghost use Rattle.card.specs.Sound.{record_count};
ghost use Rattle.command.specs.Instructions as ins;
ghost use Rattle.plan.specs.Files.{File};
ghost use Rattle.plan.specs.Promised.{plan_of, Fits, newest_of, update_change, summed, SelectEntryAsks, ReadBinaryAsks, UpdateRecordAsks, SearchAsks, IncreaseAsks};
ghost use Rattle.plan.specs.Plans as plans;

use crate::records::{number_after, record_of};
use crate::{Change, Decision, NewRecord, done, failed, handed, produced, target};
use card::Row;
use command::checks::Check;
use command::ends::{END_OF_DATA, NORMAL, SELECTED_DEACTIVATED};
use command::instruction::NO_DATA;
use command::{Command, Format};
use session::Standing;

// Returns the word of a SELECT that finds an entry.
#[tactic(auto, unfolding(crate::specs::Plans::select_word, octets::specs::Choice::pick))]
fn select_word(r: Row) -> usize
    ensures { result ≡ plans.select_word r }
{
    if r.state == card::DEACTIVATED {
        return SELECTED_DEACTIVATED;
    }
    NORMAL
}

// Returns what SELECT of entry e, with its row r, does; an FCP is put at the start of `made`.
#[tactic(auto, unfolding(crate::specs::Plans::select_word, crate::specs::Plans::select_entry, crate::specs::Promised::writes_of, octets::specs::Choice::pick))]
pub fn select_entry(
    format: Format,
    s: Standing,
    p2: usize,
    e: usize,
    r: Row,
    made: &mut [u8; 255],
) -> Decision
    requires { SelectEntryAsks e r }
    ensures { ((«data» : List ℕ) → plan_of result «data» made.new ≡ plans.select_entry format s p2 e r) × (result.change ≡ Change.Nothing) }
{
    let next = session::selected(s, e, r);
    let word = select_word(r);
    if p2 == NO_DATA {
        return done(next, word, Change::Nothing);
    }
    let n = session::fcp::put_fcp(made, r);
    produced(format, next, n, word, Change::Nothing)
}

// Returns the most bytes that P3 00 reads. Each format has an arm of its own, since another one may read another number.
#[tactic(auto, unfolding(crate::specs::Plans::most_read))]
fn most_read(format: Format) -> usize
    ensures { result ≡ plans.most_read format }
{
    match format {
        Format::Compact => 256,
        Format::Expanded => 256,
    }
}

// Returns what READ BINARY does.
#[tactic(auto, unfolding(crate::specs::Plans::read_binary, crate::specs::Plans::offset_of, octets::specs::Choice::pick))]
pub fn read_binary(format: Format, c: Command, s: Standing, r: Row) -> Decision
    requires { ReadBinaryAsks c r }
    ensures { ((«data» bytes : List ℕ) (f : File) → f.row ≡ r → plan_of result «data» bytes ≡ plans.read_binary format c s f) × (result.change ≡ Change.Nothing) }
{
    let offset = c.p1 * 256 + c.p2;
    let place = r.start + offset;
    let left = r.size - offset;
    if c.p3 == 0 {
        return handed(s, NORMAL, place, left.min(most_read(format)));
    }
    if c.p3 <= left {
        return handed(s, NORMAL, place, c.p3);
    }
    handed(s, END_OF_DATA, place, left)
}

// Returns what UPDATE BINARY does.
#[tactic(auto, unfolding(crate::specs::Plans::update_binary, crate::specs::Plans::offset_of, crate::specs::Files::write_in, crate::specs::Promised::writes_of))]
pub fn update_binary(c: Command, s: Standing, r: Row) -> Decision
    requires { (c.p1 < 256) × (c.p2 < 256) }
    ensures { ((«data» bytes : List ℕ) (f : File) → f.row ≡ r → plan_of result «data» bytes ≡ plans.update_binary c «data» s f) × (result.change ≡ Change.Content r.start r.size (plans.offset_of c)) }
{
    let offset = c.p1 * 256 + c.p2;
    done(s, NORMAL, Change::Content(r.start, r.size, offset))
}

// Returns what READ RECORD does.
#[tactic(auto, using(crate::proofs::Made::after_small), unfolding(crate::specs::Plans::read_record, crate::specs::Plans::at_named))]
pub fn read_record(c: Command, s: Standing, r: Row) -> Decision
    requires { RecordOffsetAsks r (plans.named_by c s.record_number r) × (record_count r < 256) }
    ensures { ((«data» bytes : List ℕ) (f : File) → f.row ≡ r → plan_of result «data» bytes ≡ plans.read_record c s f) × (result.change ≡ Change.Nothing) }
{
    let current = s.record_number as usize;
    let number = record_of(c, current, r);
    let place = r.start + card::records::record_offset(r, number);
    let next = session::at_record(s, number_after(c.p2, current, number));
    handed(next, NORMAL, place, r.record_length)
}

// Returns the new record of a cyclic file, at the oldest place.
#[tactic(auto, unfolding(crate::specs::Promised::newest_of))]
fn new_record(file: usize, r: Row) -> NewRecord
    requires { RowFits r × (1 ≤ r.record_length) × (1 ≤ record_count r) }
    ensures { result ≡ newest_of file r }
{
    NewRecord {
        entry: file,
        start: r.start,
        size: r.size,
        record_length: r.record_length,
        place: card::records::oldest_place(r),
    }
}

// Returns what UPDATE RECORD does.
#[tactic(auto, using(crate::proofs::Made::after_small), unfolding(crate::specs::Plans::update_record, crate::specs::Files::new_record, crate::specs::Plans::at_named, crate::specs::Files::write_in, crate::specs::Promised::record_writes, crate::specs::Promised::writes_of, crate::specs::Promised::newest_of, crate::specs::Promised::update_change, octets::specs::Choice::pick))]
pub fn update_record(c: Command, s: Standing, r: Row) -> Decision
    requires { UpdateRecordAsks c s r }
    ensures { ((«data» bytes : List ℕ) (f : File) → f.row ≡ r → f.entry ≡ s.file → plan_of result «data» bytes ≡ plans.update_record c «data» s f) × (result.change ≡ update_change c s r) }
{
    if r.kind == card::CYCLIC {
        let next = session::at_record(s, 1);
        return done(next, NORMAL, Change::DataRecord(new_record(target(s), r)));
    }
    let current = s.record_number as usize;
    let number = record_of(c, current, r);
    let offset = card::records::record_offset(r, number);
    let next = session::at_record(s, number_after(c.p2, current, number));
    done(next, NORMAL, Change::Content(r.start, r.size, offset))
}

// Returns what SEARCH does; the numbers that it finds are put at the start of `made`.
pub fn search_records(
    format: Format,
    c: Command,
    data: &[u8],
    s: Standing,
    r: Row,
    files: &[u8],
    made: &mut [u8; 255],
) -> Decision
    requires { (c.instruction ≡ ins.search) × SearchAsks files.now r (plans.named_by c s.record_number r) }
    ensures { ((f : File) → f.row ≡ r → f.content ≡ part files.now r.start r.size → plan_of result «data».now made.new ≡ plans.search format c «data».now s f) × (result.change ≡ Change.Nothing) }
{
    let number = record_of(c, s.record_number as usize, r);
    let n = crate::search::search(files, r, c.p2, number, data, made);
    if n == 0 {
        return done(s, END_OF_DATA, Change::Nothing);
    }
    let next = session::at_record(s, octets::wide(made[0]));
    produced(format, next, n, NORMAL, Change::Nothing)
}

// Returns what INCREASE does; the sum and then the added bytes are put at the start of `made`.
pub fn increase(
    format: Format,
    data: &[u8],
    s: Standing,
    r: Row,
    files: &[u8],
    made: &mut [u8; 255],
) -> Decision
    requires { IncreaseAsks files.now «data».now r }
    ensures { ((f : File) → f.row ≡ r → f.entry ≡ s.file → f.content ≡ part files.now r.start r.size → plan_of result «data».now made.new ≡ summed ins.increase f «data».now s (plans.increase format «data».now s f)) × ((t : ℕ) → place_of_newest s.file < t → Fits t (length files.now) (length «data».now) result.change) }
{
    let record = r.record_length;
    let at = r.start + card::records::record_offset(r, 1);
    let end = at + record;
    let carry = crate::sum::add(&files[at..end], data, made);
    if carry != 0 {
        return failed(s, Check::SumTooLong);
    }
    octets::copy(made, record, data);
    let next = session::at_record(s, 1);
    produced(
        format,
        next,
        record + data.len(),
        NORMAL,
        Change::SumRecord(new_record(target(s), r)),
    )
}

// Returns what DEACTIVATE and ACTIVATE do: the file gets the state `state`.
#[tactic(auto, unfolding(crate::specs::Plans::switch, crate::specs::Promised::writes_of))]
pub fn switch(state: usize, s: Standing) -> Decision
    requires { s.file < 64 }
    ensures { ((«data» bytes : List ℕ) (f : File) → f.entry ≡ s.file → plan_of result «data» bytes ≡ plans.switch state s f) × (result.change ≡ Change.TableByte (place_of_state s.file) state) }
{
    done(
        s,
        NORMAL,
        Change::TableByte(card::place_of_state(target(s)), state),
    )
}
