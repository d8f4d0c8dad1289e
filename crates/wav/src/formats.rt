// What the body of a "fmt " chunk says.
ghost use Rattle.std.specs.Prelude.{◌≡◌, ◌≤◌, length};
ghost use Rattle.wavefile.specs.Formats.{plain, rate};

use riff::fields::{four_bytes, two_bytes};

// Where the fields stand. Between the rate and the bits are the byte rate and the block alignment.
const TAG: usize = 0;

const CHANNELS: usize = 2;

const RATE: usize = 4;

const BITS: usize = 14;

// Whether it is the format that is read.
pub(crate) fn plain(format: &[u8]) -> bool
    requires { 16 ≤ length format.now }
    ensures { result ≡ plain format.now }
{
    two_bytes(format, TAG) == 1 && two_bytes(format, CHANNELS) == 1 && two_bytes(format, BITS) == 16
}

// Its samples a second.
pub(crate) fn rate(format: &[u8]) -> u32
    requires { 16 ≤ length format.now }
    ensures { result ≡ rate format.now }
{
    four_bytes(format, RATE)
}
