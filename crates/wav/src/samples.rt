// Samples from their bytes.
ghost use Rattle.std.specs.Prelude.{◌≡◌, ◌*◌, ◌≤◌, length};
ghost use Rattle.bspline.specs.Limits.{longest_row};
ghost use Rattle.wavefile.specs.Samples.{samples as the_samples};

use answers::limits::LONGEST_ROW;

// Writes the samples of twice as many bytes over a whole row. The bytes are taken by their places: of a row that is lent to a zip the prover knows no
// element afterwards.
fn decode(content: &[u8], row: &mut [i16])
    requires { length content.now ≡ 2 * length row.old }
    ensures { row.new ≡ the_samples content.now }
{
    for (i, sample) in row.iter_mut().enumerate() {
        *sample = i16::from_le_bytes([content[2 * i], content[2 * i + 1]]);
    }
}

// Writes the samples of twice as many bytes over a whole buffer, by way of an array. The array overlaps neither, which the compiler does not know of
// the other two: so it makes one copy of both steps and leaves the array out.
pub(crate) fn fill(content: &[u8], samples: &mut [i16])
    requires { (length content.now ≡ 2 * length samples.old) × (length samples.old ≤ longest_row) }
    ensures { samples.new ≡ the_samples content.now }
{
    let mut row = [0; LONGEST_ROW];
    let count = samples.len();
    decode(content, &mut row[..count]);
    samples.copy_from_slice(&row[..count]);
}
