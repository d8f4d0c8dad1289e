// Reads a clip from a WAVE file in memory. specs/Outcomes.antt of the crate wavefile says what is answered and what is left in the sample buffer.
#![tactic(auto)]

mod formats;
mod samples;

ghost use Rattle.std.specs.Prelude.{◌≡◌};
ghost use Rattle.wav.specs.Answers.{answered};
ghost use Rattle.wavefile.specs.Outcomes.{wav_read};

use answers::checks::refuse_if;
use answers::limits::LONGEST_ROW;
pub use answers::{Refusal, limits};

// A clip that was read: how many samples it has, and how many of them make a second.
#[derive(Clone, Copy, Debug, PartialEq, Eq)]
pub struct Clip {
    pub count: usize,
    pub rate: u32,
}

// Writes the samples of a file's first "data" chunk to the start of a buffer.
#[tactic(auto, using(wavefile::proofs::Samples::samples_length), unfolding(wavefile::specs::Outcomes::wav_read))]
pub fn read(bytes: &[u8], samples: &mut [i16]) -> Result<Clip, Refusal>
    ensures { record { answer = answered result; samples = samples.new } ≡ wav_read bytes.now samples.old }
{
    let chunks = riff::chunks::find(bytes).ok_or(Refusal::BadFile)?;
    refuse_if(!formats::plain(chunks.format), Refusal::OtherFormat)?;
    let content = chunks.content;
    refuse_if(content.len() % 2 == 1, Refusal::UnfitSamples)?;
    let count = content.len() / 2;
    refuse_if(samples.len() < count, Refusal::UnfitSamples)?;
    refuse_if(count == 0, Refusal::EmptyRow)?;
    refuse_if(LONGEST_ROW < count, Refusal::LongRow)?;
    samples::fill(content, &mut samples[..count]);
    Ok(Clip {
        count,
        rate: formats::rate(chunks.format),
    })
}
