// The sum of INCREASE: big-endian numbers, added from the right with the carry.
ghost use Rattle.std.specs.Prelude.{◌≡◌, ◌+◌, ◌/◌, ◌^◌, ◌≤◌, ◌<◌, length};
ghost use Rattle.octets.specs.Bytes.{value, bytes_of, overwrite};
ghost use Rattle.plan.specs.Sums.{from_right};

// Returns a number's byte at place i, counted from its right end, and 0 in front of the number.
#[tactic(auto, unfolding(crate::specs::Sums::from_right, octets::specs::Choice::pick))]
fn from_right(number: &[u8], i: usize) -> usize
    ensures { (result ≡ from_right number.now i) × (result < 256) }
{
    if i < number.len() {
        let at = number.len() - 1 - i;
        return octets::wide(number[at]);
    }
    0
}

// Puts the sum of two numbers at the start of `out`, in the number of bytes that `first` has, and returns the carry, 0 where the
// sum fits.
pub fn add(first: &[u8], added: &[u8], out: &mut [u8]) -> usize
    requires { (length added.now ≤ length first.now) × (length first.now ≤ length out.old) }
    ensures { (result ≡ (value first.now + value added.now) / 256 ^ length first.now)
        × (out.new ≡ overwrite out.old 0 (bytes_of (length first.now) (value first.now + value added.now))) }
{
    let n = first.len();
    let mut carry: usize = 0;
    for i in 0..n {
        let at = n - 1 - i;
        let digits = from_right(first, i) + from_right(added, i) + carry;
        out[at] = (digits % 256) as u8;
        carry = digits / 256;
    }
    carry
}
