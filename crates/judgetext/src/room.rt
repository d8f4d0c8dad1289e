// The arrays of a program that reads a text and lists its values, by their lengths: none is too short. Each is one expression, which a generic function
// of a length would have to repeat with its type.
ghost use Rattle.std.specs.Prelude.{◌≡◌, ◌+◌, pos, replicate};
ghost use Rattle.bspline.specs.Limits.{most_values};
ghost use Rattle.judgetext.specs.Limits.{longest_text};

use crate::LONGEST_TEXT;
use answers::limits::MOST_VALUES;

// Zeros for a text. There is one byte more than the longest text has, so that a longer one is seen as such.
pub fn text_room() -> [u8; LONGEST_TEXT + 1]
    ensures { result ≡ replicate (longest_text + 1) 0 }
{
    [0; LONGEST_TEXT + 1]
}

// Zeros for the values of the longest row at the greatest factor.
pub fn value_room() -> [i32; MOST_VALUES]
    ensures { result ≡ replicate most_values (pos 0) }
{
    [0; MOST_VALUES]
}
