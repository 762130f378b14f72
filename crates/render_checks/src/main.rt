//! Runs the whole call on a fixed sample: each line of standard input has an input and the output
//! that an independent implementation gives it, both in hexadecimal. It tells how many agree, and
//! what the call answers where it is lent too little.
#![tactic(auto)]

use anyhow::anyhow;
use hex::FromHexError;
use march::Pixel;
use render::{MOST_BYTES, MOST_PIXELS, render};
use std::alloc::{AllocError, Global};
use words::WORD;

/// What the records and the bytes hold before a call.
const UNTOUCHED: Pixel = Pixel::Miss { probes: 7 };

const BLANK: u8 = 0xaa;

/// The bytes that a text in hexadecimal has.
fn decoded(heap: Global, text: &str) -> anyhow::Result<Vec<u8>> {
    if text.bytes().any(|letter| letter.is_ascii_uppercase()) {
        return Err(anyhow!("a line of the sample is not hexadecimal"));
    }
    match hex::decode(heap, text) {
        Err(FromHexError::InvalidHexCharacter { .. } | FromHexError::OddLength) => {
            Err(anyhow!("a line of the sample is not hexadecimal"))
        }
        decoded => Ok(decoded?),
    }
}

/// Are all bytes from the place `from` on blank?
fn is_blank(bytes: &[u8], from: usize) -> bool {
    bytes.iter().skip(from).all(|byte| *byte == BLANK)
}

/// Are all records as they were?
fn is_untouched(records: &[Pixel]) -> bool {
    records.iter().all(|record| *record == UNTOUCHED)
}

/// So many records and bytes to lend, and what they hold before a call, which uses no heap itself.
fn lent(heap: Global, records: usize, bytes: usize) -> Result<(Vec<Pixel>, Vec<u8>), AllocError> {
    let mut lent = Vec::new(heap);
    lent.resize(records, UNTOUCHED)?;
    let mut out = Vec::new(heap);
    out.resize(bytes, BLANK)?;
    Ok((lent, out))
}

/// Does the call write the expected bytes, and no others? A refused input leaves the records.
fn agrees(heap: Global, input: &[u8], expected: &[u8]) -> anyhow::Result<bool> {
    let (mut records, mut out) = lent(heap, MOST_PIXELS, MOST_BYTES)?;
    let Ok(length) = render(input, &mut records, &mut out) else {
        return Ok(false);
    };
    let Some(written) = out.get(..length) else {
        return Ok(false);
    };
    let kept = length != WORD || is_untouched(&records);
    Ok(written == expected && is_blank(&out, length) && kept)
}

/// What the call answers to the empty input where it is lent so many records and bytes, and whether
/// it wrote nowhere.
fn tell_refused(rt: &HostRuntime, records: usize, bytes: usize) -> anyhow::Result<()> {
    let (mut lent, mut out) = lent(rt.alloc(), records, bytes)?;
    match render(&[], &mut lent, &mut out) {
        Ok(length) => println!(rt; "{records} records, {bytes} bytes: {length} bytes written")?,
        Err(fault) => {
            let kept = is_untouched(&lent) && is_blank(&out, 0);
            println!(rt; "{records} records, {bytes} bytes: {fault}; nothing written: {kept}")?
        }
    }
    Ok(())
}

/// Does the call agree with a line of the sample?
fn line_agrees(heap: Global, line: &str) -> anyhow::Result<bool> {
    let Some((input, expected)) = line.split_once(' ') else {
        return Err(anyhow!("a line of the sample has no space"));
    };
    agrees(heap, &decoded(heap, input)?, &decoded(heap, expected)?)
}

/// Goes through the sample, and tells each line that does not agree.
fn tell_sample(rt: &HostRuntime) -> anyhow::Result<()> {
    let heap = rt.alloc();
    let mut lines = 0;
    let mut agreed: usize = 0;
    for (k, line) in rt.lines(heap).enumerate() {
        lines = k + 1;
        if line_agrees(heap, line?.as_str())? {
            agreed = agreed.saturating_add(1);
        } else {
            println!(rt; "line {lines} of the sample does not agree")?;
        }
    }
    println!(rt; "{agreed} of {lines} inputs agree")?;
    Ok(())
}

fn tell(rt: &HostRuntime) -> anyhow::Result<()> {
    tell_refused(rt, MOST_PIXELS - 1, MOST_BYTES)?;
    tell_refused(rt, MOST_PIXELS, MOST_BYTES - 1)?;
    tell_refused(rt, MOST_PIXELS - 1, MOST_BYTES - 1)?;
    tell_refused(rt, MOST_PIXELS, MOST_BYTES)?;
    tell_sample(rt)
}

fn main(rt: HostRuntime) -> anyhow::Result<()> {
    tell(&rt)
}
