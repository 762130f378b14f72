//! The whole task through files: a model's bytes go in, and the bytes of its depth image come out.
#![tactic(auto)]

use anyhow::anyhow;
use march::Pixel;
use picture::{tell_answer, tell_changes, tell_words, words_of};
use render::{JOB_WORDS, MOST_BYTES, MOST_PIXELS, render};
use words::WORD;

mod model;
mod picture;

/// The word of the scene that is damaged, the strap's third number; the job's words stand before
/// the scene in the file.
const PLACE: usize = 4;

/// The damaged word's last byte, which has its kind, and what is put there.
const DAMAGED_BYTE: usize = WORD * (JOB_WORDS + PLACE) + 3;

const DAMAGE: u8 = 0x70;

/// Renders a file, tells what the answer says, and gives its words.
fn rendered(rt: &HostRuntime, file: &[u8]) -> anyhow::Result<Vec<u32>> {
    let heap = rt.alloc();
    // The call uses no heap: what it works on is lent to it.
    let mut records = Vec::new(heap);
    records.resize(MOST_PIXELS, Pixel::Miss { probes: 0 })?;
    let mut out = Vec::new(heap);
    out.resize(MOST_BYTES, 0)?;
    let Ok(length) = render(file, &mut records, &mut out) else {
        return Err(anyhow!("the walkthrough lends too little"));
    };
    out.truncate(length);
    println!(rt; "rendered: {} bytes in, {length} bytes out", file.len())?;
    let words = words_of(heap, &out)?;
    tell_answer(rt, &words)?;
    Ok(words)
}

/// Tells the words of one part of a file.
fn tell_part(rt: &HostRuntime, what: &str, part: &[u8]) -> anyhow::Result<()> {
    let words = words_of(rt.alloc(), part)?;
    tell_words(rt, what, &words)
}

/// A picture under both clamps, one under the strap alone, and what changed; gives the last file.
fn two_pictures(rt: &HostRuntime, job: &[u8], stock: &[u8]) -> anyhow::Result<Vec<u8>> {
    let heap = rt.alloc();
    let clamps = model::both_clamps(heap)?;
    tell_part(rt, "scene of a strap and a ball", &clamps)?;
    let before = rendered(rt, &model::joined(heap, job, &clamps, stock)?)?;
    let strap = model::strap_alone(heap)?;
    tell_part(rt, "the ball is taken out: scene of the strap", &strap)?;
    let file = model::joined(heap, job, &strap, stock)?;
    let after = rendered(rt, &file)?;
    println!(rt; "depths that changed")?;
    tell_changes(rt, &before, &after)?;
    Ok(file)
}

/// Damages one word of the file, and tells what it was and what it is.
fn damage(rt: &HostRuntime, file: &mut [u8]) -> anyhow::Result<()> {
    if let Some(byte) = file.get_mut(DAMAGED_BYTE) {
        println!(rt;
            "the scene's word {PLACE} is damaged: its last byte was {byte:02x}, and is {DAMAGE:02x}"
        )?;
        *byte = DAMAGE;
    }
    Ok(())
}

/// Stock under a strap and a ball, the same without the ball, and a damaged file.
fn render_files(rt: &HostRuntime) -> anyhow::Result<()> {
    let heap = rt.alloc();
    let job = model::job(heap)?;
    tell_part(rt, "job", &job)?;
    let stock = model::stock(heap)?;
    tell_part(rt, "surface", &stock)?;
    let mut file = two_pictures(rt, &job, &stock)?;
    damage(rt, &mut file)?;
    let _ = rendered(rt, &file)?;
    Ok(())
}

fn main(rt: HostRuntime) -> anyhow::Result<()> {
    render_files(&rt)
}
