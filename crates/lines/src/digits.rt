// Digits: reading numbers and bytes from them, and writing them.
ghost use Rattle.std.specs.Prelude.{◌≡◌, true, ℕ, ◌+◌, ◌*◌, ◌^◌, ◌≤◌, ◌<◌, IfSome, IsSome, length};
ghost use Rattle.octets.specs.Bytes.{overwrite};
ghost use Rattle.lines.specs.Digits as spec;

// The largest number of the desk's programs.
const MOST_NUMBER: usize = 65535;

// Returns the number that a sign stands for; none where it is no digit.
#[tactic(auto, unfolding(crate::specs::Digits::digit, octets::specs::Choice::pick))]
fn digit(b: u8) -> Option<usize>
    ensures { result ≡ spec.digit b }
{
    match b {
        b'0'..=b'9' => Some(usize::from(b) - 0x30),
        b'A'..=b'F' => Some(usize::from(b) - 0x37),
        _ => None,
    }
}

// Returns the number that a sign stands for in a base; none where it is no digit of the base.
#[tactic(auto, unfolding(crate::specs::Digits::digit_in))]
fn digit_in(base: usize, b: u8) -> Option<usize>
    ensures { result ≡ spec.digit_in base b }
{
    digit(b).filter(|d| *d < base)
}

// Returns the sign of a number below 16.
#[tactic(auto, unfolding(crate::specs::Digits::sign, octets::specs::Choice::pick))]
fn sign(n: usize) -> u8
    requires { n < 16 }
    ensures { result ≡ spec.sign n }
{
    if n < 10 {
        return (0x30 + n) as u8;
    }
    (0x37 + n) as u8
}

// Returns the number of at most five digits in a base; none where one of them is no digit of the base.
#[tactic(auto, using(crate::proofs::Numbers::numbers), unfolding(crate::specs::Digits::number_of))]
pub(crate) fn number_of(digits: &[u8], base: usize) -> Option<usize>
    requires { (length digits.now ≤ 5) × (1 ≤ base) × (base ≤ 16) }
    ensures { (result ≡ spec.number_of base digits.now) × IfSome result (λ n. n < base ^ length digits.now) }
{
    let mut n = 0;
    for b in digits {
        let d = digit_in(base, *b)?;
        n = n * base + d;
    }
    Some(n)
}

// Returns the number, at most 65,535, of decimal digits without a zero in front; none where they are another.
#[tactic(auto, unfolding(crate::specs::Digits::plain_number, octets::specs::Choice::pick))]
pub fn plain_number(digits: &[u8]) -> Option<usize>
    ensures { (result ≡ spec.plain_number digits.now) × IfSome result (λ n. n < 65536) }
{
    if (digits.len() < 1) | (5 < digits.len()) {
        return None;
    }
    if (digits.len() != 1) & (digits[0] == b'0') {
        return None;
    }
    number_of(digits, 10).filter(|n| *n <= MOST_NUMBER)
}

// Whether each of `digits` is a hex digit.
#[tactic(auto, unfolding(crate::specs::Digits::all_hex))]
fn all_hex(digits: &[u8]) -> bool
    ensures { result ≡ spec.all_hex digits.now }
{
    digits.iter().all(|b| digit(*b).is_some())
}

// Whether `digits` are hex digits in pairs.
pub fn is_hex(digits: &[u8]) -> bool
    ensures { result ≡ spec.is_hex digits.now }
{
    (digits.len() % 2 == 0) & all_hex(digits)
}

// Returns the byte of two hex digits.
#[tactic(auto, using(crate::proofs::Numbers::digit_small))]
fn pair(a: u8, b: u8) -> u8
    requires { IsSome (spec.digit a) × IsSome (spec.digit b) }
    ensures { result ≡ spec.pair a b }
{
    (digit(a).unwrap() * 16 + digit(b).unwrap()) as u8
}

// Puts the bytes of pairs of hex digits at the start of `out`. Returns how many bytes they are.
#[tactic(auto, using(crate::proofs::Hex::pairs))]
pub fn decode(digits: &[u8], out: &mut [u8]) -> usize
    requires { (spec.all_hex digits.now ≡ true) × (length digits.now ≤ 2 * length out.old) }
    ensures { (out.new ≡ overwrite out.old 0 (spec.decoded digits.now)) × (result ≡ length (spec.decoded digits.now)) }
{
    let n = digits.len() / 2;
    for i in 0..n {
        out[i] = pair(digits[2 * i], digits[2 * i + 1]);
    }
    n
}

// Puts bytes at the place `at`, as pairs of hex digits.
#[tactic(auto, using(crate::proofs::Hex::signs_end))]
pub(crate) fn put_hex(out: &mut [u8], at: usize, bytes: &[u8])
    requires { at + 2 * length bytes.now ≤ length out.old }
    ensures { out.new ≡ overwrite out.old at (spec.hex_of bytes.now) }
{
    for (i, b) in bytes.iter().enumerate() {
        let b = usize::from(*b);
        out[at + 2 * i] = sign(b / 16);
        out[at + 2 * i + 1] = sign(b % 16);
    }
}

// Puts a number at the place `at`, in decimal digits. Returns the place after it.
pub(crate) fn put_decimal(out: &mut [u8], at: usize, n: usize) -> usize
    requires { at + 20 ≤ length out.old }
    ensures { (k : ℕ) → n < k → (out.new ≡ overwrite out.old at (spec.decimal_in k n)) × (result ≡ at + length (spec.decimal_in k n)) }
{
    if n < 10 {
        out[at] = sign(n);
        return at + 1;
    }
    let end = put_decimal(out, at, n / 10);
    out[end] = sign(n % 10);
    end + 1
}
