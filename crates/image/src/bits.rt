// Fields at any bit of bytes, most significant bit first. A field is taken in parts, each as much as one byte has of it.
// Bytes and a place go as two arguments: places are worked out from counts, so a type of both would be made anew for each field, with the same bound to prove.
ghost use Rattle.std.specs.Prelude.{◌≡◌, ◌+◌, ◌-◌, ◌*◌, ◌/◌, ◌%◌, ◌^◌, ◌<◌, ◌≤◌, length};
ghost use Rattle.image.specs.Bits.{bits, bits_in, number_at};
ghost use Rattle.image.specs.Inside.{ink};

// How many of the next bits stand in the byte of which so many are behind.
fn part(behind: usize, left: usize) -> usize
    requires { (behind < 8) × (0 < left) }
    ensures { (0 < result) × (result ≤ left) × (behind + result ≤ 8) }
{
    if left < 8 - behind { left } else { 8 - behind }
}

fn power(n: usize) -> u64
    requires { n < 64 }
    ensures { result ≡ 2 ^ n }
{
    1u64 << n
}

// The n bits of a byte behind the first ones.
fn taken(b: u8, behind: usize, n: usize) -> u64
    requires { behind + n ≤ 8 }
    ensures { result ≡ b / 2 ^ (8 - behind - n) % 2 ^ n }
{
    (u64::from(b) >> (8 - behind - n)) % power(n)
}

// The number in `width` bits from bit `at` on.
pub(crate) fn field(bytes: &[u8], at: usize, width: usize) -> u64
    requires { (at + width ≤ 8 * length bytes.now) × (width ≤ 64) × (at < 2 ^ 32) }
    ensures { result ≡ number_at (bits_in bytes.now) width at }
{
    let mut v: u64 = 0;
    let mut done = 0;
    // No range counts the turns: each takes what its byte has.
    while done < width {
        let p = at + done;
        let n = part(p % 8, width - done);
        v = v * power(n) + taken(bytes[p / 8], p % 8, n);
        done += n;
    }
    v
}

// A byte whose first bits stay, then n bits of v; the rest are zero.
fn merged(b: u8, behind: usize, n: usize, v: u64) -> u8
    requires { behind + n ≤ 8 }
    ensures { result ≡ b / 2 ^ (8 - behind) * 2 ^ (8 - behind) + v % 2 ^ n * 2 ^ (8 - behind - n) }
{
    let high = (u64::from(b) >> (8 - behind)) * power(8 - behind);
    (high + v % power(n) * power(8 - behind - n)) as u8
}

// Writes the lowest n bits of v, which end within the byte that bit `at` is of, and zero bits to its end.
fn put_part(out: &mut [u8], at: usize, n: usize, v: u64)
    requires { (at < 8 * length out.old) × (0 < n) × (at % 8 + n ≤ 8) }
    ensures { out.new ≡ ink out.old at (bits n v) }
{
    let i = at / 8;
    let b = out[i];
    out[i] = merged(b, at % 8, n, v);
}

// Writes the lowest `width` bits of v from bit `at` on, and zero bits to the byte end.
pub(crate) fn put(out: &mut [u8], at: usize, width: usize, v: u64)
    requires { (at + width ≤ 8 * length out.old) × (0 < width) × (width ≤ 64) × (at < 2 ^ 32) }
    ensures { out.new ≡ ink out.old at (bits width v) }
{
    let mut left = width;
    // No range counts the turns: each takes what its byte has.
    loop {
        let p = at + (width - left);
        let n = part(p % 8, left);
        put_part(out, p, n, v >> (left - n));
        if n == left {
            return;
        }
        left -= n;
    }
}
