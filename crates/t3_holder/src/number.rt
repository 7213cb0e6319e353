//! Numbers as bytes, lowest byte first.
ghost use Rattle.std.specs.Prelude.{◌≡◌, ℕ, ◌+◌, ◌^◌, ◌<◌, ◌≤◌, List, length, take, drop};
ghost use Rattle.t3_holder.specs.NumberText.{little_endian, IsNumberText};

/// The number whose two bytes, lowest first, stand at `at`.
pub fn u16_at(bytes: &[u8], at: usize) -> u16
    requires { at + 2 ≤ length bytes.now }
    ensures { take 2 (drop at bytes.now) ≡ little_endian 2 result }
{
    u16::from_le_bytes([bytes[at], bytes[at + 1]])
}

/// The number whose four bytes, lowest first, stand at `at`.
pub fn u32_at(bytes: &[u8], at: usize) -> u32
    requires { at + 4 ≤ length bytes.now }
    ensures { take 4 (drop at bytes.now) ≡ little_endian 4 result }
{
    u32::from_le_bytes([bytes[at], bytes[at + 1], bytes[at + 2], bytes[at + 3]])
}

/// The two bytes of a number, lowest first.
pub fn u16_bytes(number: u16) -> [u8; 2]
    ensures { result ≡ little_endian 2 number }
{
    number.to_le_bytes()
}

/// The four bytes of a number, lowest first.
pub fn u32_bytes(number: u32) -> [u8; 4]
    ensures { result ≡ little_endian 4 number }
{
    number.to_le_bytes()
}

/// A number that fits has exactly one text of a width, which is that of no other such number.
pub fn number_text()
    // The text is so many bytes, and byte `i` counts 256 to the power `i`.
    ensures spelled { (width n : ℕ) → n < 256 ^ width
        → IsNumberText width n (little_endian width n) }
    // No other bytes say that number.
    ensures only { (width n : ℕ) (bytes : List ℕ) → IsNumberText width n bytes
        → bytes ≡ little_endian width n }
{}
