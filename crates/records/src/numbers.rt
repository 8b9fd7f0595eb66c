// The numbers that bytes make, most significant first.

ghost use Rattle.std.specs.Prelude.{◌≡◌, ◌+◌, ◌≤◌, ◌<◌, ◌^◌, length, get_or, take, drop};
ghost use Rattle.records.specs.Records.{number_of};

// A byte as a number.
fn byte(bytes: &[u8], at: usize) -> u64
    requires { at < length bytes.now }
    ensures { (result ≡ get_or bytes.now at 0) × (result < 256) }
{
    bytes[at] as u64
}

// The number of the two bytes from a place on.
pub fn two(bytes: &[u8], at: usize) -> u64
    requires { at + 2 ≤ length bytes.now }
    ensures { (result ≡ number_of (take 2 (drop at bytes.now))) × (result < 256 ^ 2) }
{
    byte(bytes, at) * 0x100 + byte(bytes, at + 1)
}

// The number of the eight bytes from a place on: a sum of bytes that is compiled to one load.
pub fn eight(bytes: &[u8], at: usize) -> u64
    requires { at + 8 ≤ length bytes.now }
    ensures { (result ≡ number_of (take 8 (drop at bytes.now))) × (result < 256 ^ 8) }
{
    byte(bytes, at) * 0x100_0000_0000_0000
        + byte(bytes, at + 1) * 0x1_0000_0000_0000
        + byte(bytes, at + 2) * 0x100_0000_0000
        + byte(bytes, at + 3) * 0x1_0000_0000
        + byte(bytes, at + 4) * 0x100_0000
        + byte(bytes, at + 5) * 0x1_0000
        + byte(bytes, at + 6) * 0x100
        + byte(bytes, at + 7)
}
