// The place of a record in its file.
ghost use Rattle.std.specs.Prelude.{◌≡◌, ◌+◌, ◌*◌, ◌≤◌, ◌<◌};
ghost use Rattle.card.specs.Promised.{RowFits, RecordOffsetAsks};
ghost use Rattle.card.specs.Sound.{record_count};
ghost use Rattle.card.specs.Records.{cyclic_place, record_offset, oldest_place};

use crate::Row;

// Returns the place of record r among m records, with the newest at place k.
#[tactic(auto, unfolding(crate::specs::Records::cyclic_place))]
fn cyclic_place(m: usize, k: usize, r: usize) -> usize
    requires { (1 ≤ m) × (1 ≤ r) × (k + r < 131072) }
    ensures { (result ≡ cyclic_place m k r) × (result < m) }
{
    (k + r - 1) % m
}

// Returns how many records a file has.
pub fn record_count(f: Row) -> usize
    requires { 1 ≤ f.record_length }
    ensures { (result ≡ record_count f) × (result * f.record_length ≤ f.size) }
{
    let record = f.record_length;
    f.size / record
}

// Returns where record r begins in its file.
#[tactic(auto, unfolding(crate::specs::Records::record_offset, crate::specs::Records::record_place))]
pub fn record_offset(f: Row, r: usize) -> usize
    requires { RecordOffsetAsks f r }
    ensures { (result ≡ record_offset f r) × (result + f.record_length ≤ f.size) }
{
    let record = f.record_length;
    let m = record_count(f);
    record * cyclic_place(m, f.newest, r)
}

// Returns the place of the oldest record of a file.
#[tactic(auto, unfolding(crate::specs::Records::oldest_place, crate::specs::Records::record_place))]
pub fn oldest_place(f: Row) -> usize
    requires { (1 ≤ f.record_length) × (1 ≤ record_count f) × RowFits f }
    ensures { (result ≡ oldest_place f) × (result < record_count f) }
{
    let m = record_count(f);
    cyclic_place(m, f.newest, m)
}
