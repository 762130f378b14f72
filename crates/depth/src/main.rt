//! Reads a model from standard input, and writes its depth image, or one word that says why it is
//! refused, to standard output.
#![tactic(auto)]

use anyhow::anyhow;
use march::Pixel;
use render::{MOST_BYTES, MOST_INPUT, MOST_PIXELS, render};
use std::io::{Read, Write};

/// One byte more than any lawful input has, so that a longer one is seen to be too long.
const LIMIT: u64 = MOST_INPUT as u64 + 1;

fn main(rt: HostRuntime) -> anyhow::Result<()> {
    let mut input = Vec::new(rt.alloc());
    rt.stdin().take(LIMIT).read_to_end(&mut input)?;
    // The call uses no heap: what it works on is lent to it.
    let mut records = Vec::new(rt.alloc());
    records.resize(MOST_PIXELS, Pixel::Miss { probes: 0 })?;
    let mut out = Vec::new(rt.alloc());
    out.resize(MOST_BYTES, 0)?;
    let Ok(length) = render(&input, &mut records, &mut out) else {
        return Err(anyhow!("the program lends too little"));
    };
    rt.stdout().write_all(&out[..length])?;
    Ok(())
}
