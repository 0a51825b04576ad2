// Bytes: big-endian numbers, writes into lent memory, and comparisons in place.
#![tactic(auto)]

ghost use Rattle.std.specs.Prelude.{◌≡◌, [], ◌∷◌, ◌++◌, ◌+◌, ◌≤◌, ◌<◌, length, drop, replicate};
ghost use Rattle.octets.specs.Bytes.{part, num_at, bytes2, overwrite, all_zero, starts_with, contains};

// Returns a byte as a number.
pub fn wide(b: u8) -> usize
    ensures { (result ≡ b) × (result < 256) }
{
    usize::from(b)
}

// Returns the 16-bit number that stands at the place `at`.
#[tactic(auto, unfolding(crate::specs::Bytes::num_at))]
pub fn num_at(m: &[u8], at: usize) -> usize
    requires { at + 2 ≤ length m.now }
    ensures { (result ≡ num_at m.now at) × (result < 65536) }
{
    usize::from(u16::from_be_bytes([m[at], m[at + 1]]))
}

// Returns the lowest 16 bits of n as two bytes.
#[tactic(auto, unfolding(crate::specs::Bytes::bytes2))]
pub fn bytes2(n: usize) -> [u8; 2]
    ensures { result ≡ bytes2 n }
{
    ((n % 65536) as u16).to_be_bytes()
}

// Writes the lowest 16 bits of n, as two bytes, at the place `at`.
pub fn put_num(m: &mut [u8], at: usize, n: usize)
    requires { at + 2 ≤ length m.old }
    ensures { m.new ≡ overwrite m.old at (bytes2 n) }
{
    copy(m, at, &bytes2(n));
}

// Copies the bytes of `d` into `m`, from the place `at` on. A loop, since copy_from_slice calls memmove, and the code needs nothing but
// memcpy and memset (include/rfm.h).
pub fn copy(m: &mut [u8], at: usize, d: &[u8])
    requires { at + length d.now ≤ length m.old }
    ensures { m.new ≡ overwrite m.old at d.now }
{
    for (i, b) in d.iter().enumerate() {
        m[at + i] = *b;
    }
}

// Fills the n bytes from the place `at` on with the byte b.
pub fn fill(m: &mut [u8], at: usize, n: usize, b: u8)
    requires { at + n ≤ length m.old }
    ensures { m.new ≡ overwrite m.old at (replicate n b) }
{
    m[at..at + n].fill(b);
}

// Writes the four bytes of a journal's head: used bytes, scripts on trial, flag.
pub fn put_head(m: &mut [u8], used: usize, scripts: u8, flag: u8)
    requires { 4 ≤ length m.old }
    ensures { m.new ≡ overwrite m.old 0 (bytes2 used ++ (scripts ∷ flag ∷ [])) }
{
    let [high, low] = bytes2(used);
    copy(m, 0, &[high, low, scripts, flag]);
}

// Returns whether every byte is zero. Each is looked at, so that many are compared at once: to stop at the first that is not, by
// `all`, takes 11,500 instructions more for a journal of 2,048 bytes.
pub fn all_zero(m: &[u8]) -> bool
    ensures { result ≡ all_zero m.now }
{
    let mut zero = true;
    for b in m {
        zero &= *b == 0;
    }
    zero
}

// The loops below count their places: a search for 200 of 254 bytes takes 1.09 times the second program's instructions with them, and
// 1.46 over windows and pieces of slices; one for 32 bytes 0.71 with them, and 2.09 with `==`. The limit is 1.25 (docs/LOOK-BACK.md).

// Returns whether the n bytes of `d` from the place `from` on stand in `m` at the place `at`; all of them are compared.
fn same_part(m: &[u8], at: usize, d: &[u8], from: usize, n: usize) -> bool
    requires { (at + n ≤ length m.now) × (from + n ≤ length d.now) }
    ensures { result ≡ starts_with (drop at m.now) (part d.now from n) }
{
    let mut same = true;
    let mut i: usize = 0;
    while i < n {
        same = same & (m[at + i] == d[from + i]);
        i += 1;
    }
    same
}

// Returns whether the bytes of `m` from the place `at` on begin with `d`, of MOST bytes at most: most often the first byte tells; the
// others are compared WIDTH at a time, and at last the final WIDTH bytes of `d`.
fn starts_at<const WIDTH: usize, const MOST: usize>(m: &[u8], at: usize, d: &[u8]) -> bool
    requires { (at + length d.now ≤ length m.now) × ((0 < WIDTH) × (WIDTH ≤ length d.now)) × (length d.now ≤ MOST) }
    ensures { result ≡ starts_with (drop at m.now) d.now }
{
    if m[at] != d[0] {
        return false;
    }
    let last = d.len() - WIDTH;
    let mut i: usize = 1;
    while i < last {
        if !same_part(m, at + i, d, i, WIDTH) {
            return false;
        }
        i += WIDTH;
    }
    same_part(m, at + last, d, last, WIDTH)
}

// Returns whether `d`, of MOST bytes at most, stands somewhere in `m`, in one piece; it is compared WIDTH bytes at a time.
fn stands<const WIDTH: usize, const MOST: usize>(m: &[u8], d: &[u8]) -> bool
    requires { (0 < WIDTH) × ((WIDTH ≤ length d.now) × (length d.now ≤ length m.now)) × (length d.now ≤ MOST) }
    ensures { result ≡ contains m.now d.now }
{
    let last = m.len() - d.len();
    let mut i: usize = 0;
    while i <= last {
        if starts_at::<WIDTH, MOST>(m, i, d) {
            return true;
        }
        i += 1;
    }
    false
}

// Returns what `stands` does, in code of its own: the code around it would leave the loops too few registers.
#[inline(never)]
fn stands_apart<const WIDTH: usize, const MOST: usize>(m: &[u8], d: &[u8]) -> bool
    requires { (0 < WIDTH) × ((WIDTH ≤ length d.now) × (length d.now ≤ length m.now)) × (length d.now ≤ MOST) }
    ensures { result ≡ contains m.now d.now }
{
    stands::<WIDTH, MOST>(m, d)
}

// Returns whether `d` stands somewhere in `m`, in one piece; it is compared where it lies. Each range of lengths has a search of its own,
// so that the compiler knows how many pieces there are at most. Many bytes at many places repay a call; a command has 255 at most.
pub fn within(m: &[u8], d: &[u8]) -> bool
    ensures { result ≡ contains m.now d.now }
{
    if m.len() < d.len() {
        return false;
    }
    match d.len() {
        0 => true,
        1..=3 => stands::<1, 3>(m, d),
        4..=7 => stands::<4, 7>(m, d),
        8..=31 => stands::<8, 31>(m, d),
        97..=255 if m.len() - d.len() >= 8 => stands_apart::<32, 255>(m, d),
        _ => stands::<32, { usize::MAX }>(m, d),
    }
}
