// The FCP of an entry.
ghost use Rattle.std.specs.Prelude.{◌≡◌, true, ◌≤◌, length};
ghost use Rattle.octets.specs.Bytes.{overwrite};
ghost use Rattle.card.specs.Row.{is_directory, is_transparent};
ghost use Rattle.card.specs.Promised.{RowFits};
ghost use Rattle.session.specs.Promised.{FcpFits};
ghost use Rattle.session.specs.Fcp as spec;

use card::Row;

// Returns the FCP of a directory.
fn of_directory(r: Row) -> [u8; 13]
    requires { (is_directory r ≡ true) × RowFits r }
    ensures { result ≡ spec.fcp r }
{
    let [high, low] = octets::bytes2(r.identifier);
    [
        0x62,
        11,
        0x82,
        2,
        0x78,
        0x21,
        0x83,
        2,
        high,
        low,
        0x8A,
        1,
        r.state as u8,
    ]
}

// Returns the FCP of a transparent file.
fn of_transparent(r: Row) -> [u8; 17]
    requires { (is_transparent r ≡ true) × RowFits r }
    ensures { result ≡ spec.fcp r }
{
    let [high, low] = octets::bytes2(r.identifier);
    let [size_high, size_low] = octets::bytes2(r.size);
    [
        0x62,
        15,
        0x82,
        2,
        0x41,
        0x21,
        0x83,
        2,
        high,
        low,
        0x8A,
        1,
        r.state as u8,
        0x80,
        2,
        size_high,
        size_low,
    ]
}

// Returns the file descriptor byte of a record file: 42 for a linear one, 46 for a cyclic one.
fn record_descriptor(r: Row) -> u8
    requires { (5 ≤ r.kind) × (r.kind ≤ 6) }
    ensures { result ≡ spec.descriptor r }
{
    if r.kind == card::LINEAR {
        return 0x42;
    }
    0x46
}

// Returns the FCP of a record file.
fn of_records(r: Row) -> [u8; 20]
    requires { (5 ≤ r.kind) × FcpFits r × RowFits r }
    ensures { result ≡ spec.fcp r }
{
    let count = card::records::record_count(r);
    let [high, low] = octets::bytes2(r.identifier);
    let [size_high, size_low] = octets::bytes2(r.size);
    let [record_high, record_low] = octets::bytes2(r.record_length);
    [
        0x62,
        18,
        0x82,
        5,
        record_descriptor(r),
        0x21,
        record_high,
        record_low,
        count as u8,
        0x83,
        2,
        high,
        low,
        0x8A,
        1,
        r.state as u8,
        0x80,
        2,
        size_high,
        size_low,
    ]
}

// Puts the FCP of an entry of a sound table at the start of `bytes`, and returns its length.
pub fn put_fcp(bytes: &mut [u8], r: Row) -> usize
    requires { (20 ≤ length bytes.old) × FcpFits r × RowFits r }
    ensures { (bytes.new ≡ overwrite bytes.old 0 (spec.fcp r)) × (result ≡ length (spec.fcp r)) × (result ≤ 20) }
{
    if card::rules::is_directory(r) {
        octets::copy(bytes, 0, &of_directory(r));
        return 13;
    }
    if r.kind == card::TRANSPARENT {
        octets::copy(bytes, 0, &of_transparent(r));
        return 17;
    }
    octets::copy(bytes, 0, &of_records(r));
    20
}
