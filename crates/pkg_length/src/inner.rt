// For the layers above alone: what it needs is tested there.
ghost use Rattle.std.specs.Prelude.{◌≡◌, ◌≤◌, length};
ghost use Rattle.pkg_length.specs.Little.{little};

// The number that at most eight bytes spell, low byte first: the extra bytes of a length, and constants of every width.
pub fn little_endian(bytes: &[u8]) -> u64
    requires { length bytes.now ≤ 8 }
    ensures { result ≡ little bytes.now }
{
    let mut value = 0;
    for b in bytes.iter().rev() {
        value = value * 256 + u64::from(*b);
    }
    value
}
