// Numbers and names in the bytes of a file.
ghost use Rattle.std.specs.Prelude.{◌≡◌, ◌+◌, ◌≤◌, length};
ghost use Rattle.wavefile.specs.Bytes.{number};
ghost use Rattle.wavefile.specs.Chunks.{named};

// The number of two bytes. The place stays beside the bytes here and below: both functions are public, and their promises are about places.
pub fn two_bytes(bytes: &[u8], at: usize) -> u16
    requires { at + 2 ≤ length bytes.now }
    ensures { result ≡ number at 2 bytes.now }
{
    u16::from_le_bytes([bytes[at], bytes[at + 1]])
}

// The number of four bytes.
pub fn four_bytes(bytes: &[u8], at: usize) -> u32
    requires { at + 4 ≤ length bytes.now }
    ensures { result ≡ number at 4 bytes.now }
{
    u32::from_le_bytes([bytes[at], bytes[at + 1], bytes[at + 2], bytes[at + 3]])
}

// Whether bytes begin with a name, all four of which are compared at once.
pub(crate) fn named(bytes: &[u8], name: &[u8; 4]) -> bool
    requires { 4 ≤ length bytes.now }
    ensures { result ≡ named name.now bytes.now }
{
    four_bytes(bytes, 0) == u32::from_le_bytes(*name)
}
