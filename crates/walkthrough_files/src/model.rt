//! The bytes of a model: a job, a scene and a surface, written word by word.
use std::alloc::{AllocError, Global};
use words::{FIRST_OF_TWO, Kind};

/// The words of each node, its numbers among them.
const BALL_WORDS: u32 = 5;

const BLOCK_WORDS: u32 = 7;

const UNITE_WORDS: u32 = 1;

/// Rows of the table of directions: straight down, along x and along y.
const STRAIGHT_DOWN: i16 = 12;

const ALONG_X: i16 = 22;

const ALONG_Y: i16 = 16;

/// The stock's columns, along x and along y.
const STOCK_WIDTH: u32 = 10;

const STOCK_DEPTH: u32 = 4;

/// A word of a kind, with what its other bits say.
fn word(file: &mut Vec<u8>, kind: Kind, rest: u32) -> Result<(), AllocError> {
    file.extend_from_slice(&kind.word(rest).to_le_bytes())
}

/// A word that says no more than its kind.
fn bare(file: &mut Vec<u8>, kind: Kind) -> Result<(), AllocError> {
    word(file, kind, 0)
}

fn numbers(file: &mut Vec<u8>, numbers: &[i16]) -> Result<(), AllocError> {
    for number in numbers {
        word(file, Kind::Number, u32::from(number.cast_unsigned()))?;
    }
    Ok(())
}

/// A picture of 12 by 6 pixels, looking straight down from z = 40; the stock is moved by one
/// along x and y, so that the picture has a rim around it.
pub(super) fn job(heap: Global) -> Result<Vec<u8>, AllocError> {
    let mut file = Vec::new(heap);
    let origin = [0, 0, 40];
    let rows = [STRAIGHT_DOWN, ALONG_X, ALONG_Y];
    let width_height_far = [12, 6, 60];
    let guard = [0];
    let shift = [1, 1, 0];
    bare(&mut file, Kind::Job)?;
    numbers(&mut file, &origin)?;
    numbers(&mut file, &rows)?;
    numbers(&mut file, &width_height_far)?;
    numbers(&mut file, &guard)?;
    numbers(&mut file, &shift)?;
    numbers(&mut file, &[-100, -100, -100])?;
    numbers(&mut file, &[100, 100, 100])?;
    Ok(file)
}

/// A strap clamp: a box that comes in from the left, over the stock's edge.
fn strap(file: &mut Vec<u8>) -> Result<(), AllocError> {
    bare(file, Kind::Block)?;
    numbers(file, &[0, 1, 16])?;
    numbers(file, &[3, 2, 18])
}

/// A ball clamp, over the stock's right side.
fn ball(file: &mut Vec<u8>) -> Result<(), AllocError> {
    bare(file, Kind::Ball)?;
    numbers(file, &[9, 3, 16, 2])
}

/// The strap and the ball, united.
pub(super) fn both_clamps(heap: Global) -> Result<Vec<u8>, AllocError> {
    let mut file = Vec::new(heap);
    word(
        &mut file,
        Kind::Scene,
        BLOCK_WORDS + BALL_WORDS + UNITE_WORDS,
    )?;
    strap(&mut file)?;
    ball(&mut file)?;
    bare(&mut file, Kind::Unite)?;
    Ok(file)
}

/// The strap alone.
pub(super) fn strap_alone(heap: Global) -> Result<Vec<u8>, AllocError> {
    let mut file = Vec::new(heap);
    word(&mut file, Kind::Scene, BLOCK_WORDS)?;
    strap(&mut file)?;
    Ok(file)
}

/// Stock with a pocket in the middle and a burr beside it.
pub(super) fn stock(heap: Global) -> Result<Vec<u8>, AllocError> {
    let mut file = Vec::new(heap);
    let sides = STOCK_WIDTH * FIRST_OF_TWO + STOCK_DEPTH;
    word(&mut file, Kind::Surface, sides)?;
    numbers(&mut file, &[12, 12, 12, 12, 12, 12, 12, 12, 12, 12])?;
    numbers(&mut file, &[12, 12, 12, 6, 5, 5, 6, 12, 12, 12])?;
    numbers(&mut file, &[12, 12, 12, 6, 5, 5, 6, 12, 14, 13])?;
    numbers(&mut file, &[12, 12, 12, 12, 12, 12, 12, 12, 13, 12])?;
    Ok(file)
}

/// The three parts, joined.
pub(super) fn joined(
    heap: Global,
    job: &[u8],
    scene: &[u8],
    surface: &[u8],
) -> Result<Vec<u8>, AllocError> {
    let mut file = Vec::new(heap);
    file.extend_from_slice(job)?;
    file.extend_from_slice(scene)?;
    file.extend_from_slice(surface)?;
    Ok(file)
}
