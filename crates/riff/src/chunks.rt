// The header of a file and its chunks.
ghost use Rattle.std.specs.Prelude.{◌≡◌};
ghost use Rattle.wavefile.specs.Chunks.{headed};
ghost use Rattle.riff.specs.Places.{Begins, Walked, Finds};

use crate::fields::{four_bytes, named};

// A chunk that ends within the file, by its body, and the bytes that follow it and its pad byte.
#[derive(Clone, Copy)]
pub(crate) struct Chunk<'a> {
    body: &'a [u8],
    rest: &'a [u8],
}

// The bodies of the first "data" chunk and of the first "fmt " chunk, if one came before.
#[derive(Clone, Copy)]
pub(crate) struct Found<'a> {
    format: Option<&'a [u8]>,
    content: &'a [u8],
}

// The parts of a file that are read: the bodies of its "fmt " and its "data" chunk.
#[derive(Clone, Copy)]
pub struct Chunks<'a> {
    pub format: &'a [u8],
    pub content: &'a [u8],
}

// The bytes of the header, of a chunk's name and size, and the fewest of a format.
const HEADER: usize = 12;

const BEFORE_BODY: usize = 8;

const LEAST_FORMAT: usize = 16;

// Whether the file has both marks and its size.
fn headed(bytes: &[u8]) -> bool
    ensures { result ≡ headed bytes.now }
{
    if bytes.len() < HEADER {
        return false;
    }
    if !named(bytes, b"RIFF") {
        return false;
    }
    if four_bytes(bytes, 4) as usize != bytes.len() - 8 {
        return false;
    }
    named(&bytes[8..], b"WAVE")
}

// The chunk that bytes begin with. No sum is made that a size could make too great.
fn chunk_at_start(bytes: &[u8]) -> Option<Chunk<'_>>
    ensures { Begins bytes.now result }
{
    if bytes.len() < BEFORE_BODY {
        return None;
    }
    let size = four_bytes(bytes, 4) as usize;
    let room = bytes.len() - BEFORE_BODY;
    if room < size {
        return None;
    }
    if room - size < size % 2 {
        return None;
    }
    Some(Chunk {
        body: &bytes[BEFORE_BODY..BEFORE_BODY + size],
        rest: &bytes[BEFORE_BODY + size + size % 2..],
    })
}

// Goes from chunk to chunk to the first "data". The first "fmt " is kept, later ones and other chunks are skipped.
#[tactic(auto, using(crate::proofs::Walking::no_chunks))]
fn walk(bytes: &[u8]) -> Option<Found<'_>>
    ensures { Walked bytes.now result }
{
    let mut format = None;
    let mut rest = bytes.get(HEADER..)?;
    while let Some(chunk) = chunk_at_start(rest) {
        if named(rest, b"data") {
            return Some(Found {
                format,
                content: chunk.body,
            });
        }
        if named(rest, b"fmt ") {
            format = format.or(Some(chunk.body));
        }
        rest = chunk.rest;
    }
    None
}

// The chunks of a file that is not refused 11.
pub fn find(bytes: &[u8]) -> Option<Chunks<'_>>
    ensures { Finds bytes.now result }
{
    if !headed(bytes) {
        return None;
    }
    let found = walk(bytes)?;
    let format = found.format?;
    if format.len() < LEAST_FORMAT {
        return None;
    }
    Some(Chunks {
        format,
        content: found.content,
    })
}
