// Lengths: one reader for the template and for C-APDUs, and one writer.
ghost use Rattle.std.specs.Prelude.{◌≡◌, ◌+◌, ◌≤◌, ◌<◌, length};
ghost use Rattle.octets.specs.Bytes.{overwrite};
ghost use Rattle.tlv.specs.Lengths as spec;
ghost use Rattle.tlv.specs.Promised.{LengthFits};

// "Bad format TLV 90 01: 01 other tag; 03 no length byte, or too few after 81 or 82; 02 other length form, past the end, or below 4."
pub const OTHER_TAG: usize = 1;

pub const WRONG_LENGTH: usize = 2;

pub const LENGTH_MISSING: usize = 3;

// What reading a length comes to: a length and the place after it, or the code of a Bad format TLV. An enum of its own and no Result, as
// the paper has it: "Each reading of a length ends in a length, in 02 or in 03"; the codes stay numbers, since that byte is what is written.
#[derive(Clone, Copy)]
pub enum Length {
    Found(usize, usize),
    Bad(usize),
}

// Returns the length in the form 81 whose byte stands at the place `at`, in bytes that end at `end`.
fn short_length(bytes: &[u8], at: usize, end: usize) -> Length
    requires { (at ≤ end) × (end ≤ length bytes.now) }
    ensures { result ≡ spec.short_length bytes.now at end }
{
    if end - at < 1 {
        return Length::Bad(LENGTH_MISSING);
    }
    let n = octets::wide(bytes[at]);
    if n < 0x80 {
        return Length::Bad(WRONG_LENGTH);
    }
    Length::Found(n, at + 1)
}

// Returns the length in the form 82 whose two bytes stand at the place `at`, in bytes that end at `end`. Not one function with the form 81:
// they differ in how the number is read, in the least that it may be and in what it takes.
fn long_length(bytes: &[u8], at: usize, end: usize) -> Length
    requires { (at ≤ end) × (end ≤ length bytes.now) }
    ensures { result ≡ spec.long_length bytes.now at end }
{
    if end - at < 2 {
        return Length::Bad(LENGTH_MISSING);
    }
    let n = octets::num_at(bytes, at);
    if n < 0x0100 {
        return Length::Bad(WRONG_LENGTH);
    }
    Length::Found(n, at + 2)
}

// Returns the length that stands at the place `at`, in bytes that end at `end`.
pub fn length_at(bytes: &[u8], at: usize, end: usize) -> Length
    requires { (at ≤ end) × (end ≤ length bytes.now) }
    ensures { (result ≡ spec.length_at bytes.now at end) × LengthFits at end result }
{
    if end - at < 1 {
        return Length::Bad(LENGTH_MISSING);
    }
    let first = octets::wide(bytes[at]);
    if first <= 0x7F {
        return Length::Found(first, at + 1);
    }
    if first == 0x81 {
        return short_length(bytes, at + 1, end);
    }
    if first == 0x82 {
        return long_length(bytes, at + 1, end);
    }
    Length::Bad(WRONG_LENGTH)
}

// Returns the code of the Bad format TLV for a length that was not found, and 0 for one that was.
pub fn code_of(l: Length) -> usize
    ensures { result ≡ spec.code_of l }
{
    match l {
        Length::Found(_, _) => 0,
        Length::Bad(code) => code,
    }
}

// Returns how many bytes the shortest form of a length takes.
pub fn length_size(n: usize) -> usize
    ensures { (result ≡ length (spec.length_bytes n)) × (result ≤ 3) }
{
    if n < 0x80 {
        return 1;
    }
    if n < 0x0100 {
        return 2;
    }
    3
}

// Writes the length n at the place `at`, in its shortest form, and returns the place after it.
pub fn put_length(out: &mut [u8], at: usize, n: usize) -> usize
    requires { (at + 3 ≤ length out.old) × (n < 65536) }
    ensures { (out.new ≡ overwrite out.old at (spec.length_bytes n)) × (result ≡ at + length (spec.length_bytes n)) }
{
    if n < 0x80 {
        octets::fill(out, at, 1, n as u8);
        return at + 1;
    }
    if n < 0x0100 {
        octets::copy(out, at, &[0x81, n as u8]);
        return at + 2;
    }
    let [high, low] = octets::bytes2(n);
    octets::copy(out, at, &[0x82, high, low]);
    at + 3
}
