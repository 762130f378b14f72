//! The words of an answer, and what they say: a picture, or why the input is refused.
use anyhow::anyhow;
use refusal::RefusalCode;
use std::alloc::{AllocError, Global};
use std::fmt;
use words::{FIRST_OF_TWO, Kind};

/// How many words are printed in a line.
const LINE: usize = 10;

/// A word's kind, in bits 31..28.
fn kind(word: u32) -> Option<Kind> {
    Kind::try_from(word >> 28).ok()
}

/// How many numbers fit bits 27..16.
const FIRSTS: u32 = 0x1000;

/// Bits 27..16 of a word: the width of a picture, the depth of a hit.
fn upper(word: u32) -> u32 {
    word / FIRST_OF_TWO % FIRSTS
}

/// Bits 15..0 of a word: the height of a picture, the place of a refusal.
fn lower(word: u32) -> u32 {
    word % FIRST_OF_TWO
}

/// What a pixel's word says: how far the probe travels, or that it meets nothing.
#[derive(Clone, Copy, PartialEq, Eq)]
struct Depth(Option<u32>);

impl fmt::Display for Depth {
    fn fmt<W: fmt::Write>(&self, f: &mut fmt::Formatter<W>) -> fmt::Result {
        match self.0 {
            Some(depth) => write!(f, "{depth:>2}"),
            None => write!(f, " ."),
        }
    }
}

fn depth_of(pixel: u32) -> Depth {
    match kind(pixel) {
        Some(Kind::Hit) => Depth(Some(upper(pixel))),
        _ => Depth(None),
    }
}

/// Four bytes a word, least significant first.
pub(super) fn words_of(heap: Global, bytes: &[u8]) -> Result<Vec<u32>, AllocError> {
    let mut words = Vec::new(heap);
    for four in bytes.as_chunks::<4>().0 {
        words.push(u32::from_le_bytes(*four))?;
    }
    Ok(words)
}

pub(super) fn tell_words(rt: &HostRuntime, what: &str, words: &[u32]) -> anyhow::Result<()> {
    println!(rt; "{what}, {} words", words.len())?;
    for line in words.chunks(LINE) {
        for word in line {
            print!(rt; " {word:08x}")?;
        }
        println!(rt; "")?;
    }
    Ok(())
}

/// The pixels of a picture, row by row: a depth, or a point where the probe meets nothing.
fn tell_pixels(rt: &HostRuntime, width: usize, pixels: &[u32]) -> anyhow::Result<()> {
    for row in pixels.chunks(width.max(1)) {
        for pixel in row {
            print!(rt; " {}", depth_of(*pixel))?;
        }
        println!(rt; "")?;
    }
    Ok(())
}

fn tell_picture(rt: &HostRuntime, start: u32, far: u32, pixels: &[u32]) -> anyhow::Result<()> {
    let width = upper(start);
    let height = lower(start);
    let end = lower(far);
    println!(rt; "{start:08x}: a picture of {width} by {height} pixels")?;
    println!(rt; "{far:08x}: its far is {end}")?;
    tell_pixels(rt, width as usize, pixels)
}

fn tell_refusal(rt: &HostRuntime, word: u32) -> anyhow::Result<()> {
    let part = (word >> 24) & 0xf;
    let number = (word >> 16) & 0xff;
    let place = lower(word);
    let code = RefusalCode { number, place };
    println!(rt; "{word:08x}: part {part} is {code}")?;
    Ok(())
}

/// What an answer's words say.
pub(super) fn tell_answer(rt: &HostRuntime, words: &[u32]) -> anyhow::Result<()> {
    match words {
        [start, far, pixels @ ..] if kind(*start) == Some(Kind::Image) => {
            tell_picture(rt, *start, *far, pixels)
        }
        [word] if kind(*word) == Some(Kind::Refusal) => tell_refusal(rt, *word),
        _ => Err(anyhow!("the answer is neither a picture nor a refusal")),
    }
}

/// Each pixel of row j whose depth is another.
fn tell_row(rt: &HostRuntime, j: usize, before: &[u32], after: &[u32]) -> anyhow::Result<()> {
    for (i, (old, new)) in before.iter().zip(after).enumerate() {
        let was = depth_of(*old);
        let is = depth_of(*new);
        if was != is {
            println!(rt; "  ({i}, {j}): {was} -> {is}")?;
        }
    }
    Ok(())
}

/// Each pixel of two pictures of one size whose depth is another.
pub(super) fn tell_changes(rt: &HostRuntime, before: &[u32], after: &[u32]) -> anyhow::Result<()> {
    let ([start, _, old @ ..], [_, _, new @ ..]) = (before, after) else {
        return Ok(());
    };
    let width = (upper(*start) as usize).max(1);
    for (j, (was, is)) in old.chunks(width).zip(new.chunks(width)).enumerate() {
        tell_row(rt, j, was, is)?;
    }
    Ok(())
}
