//! Surfaces: truncated, of wrong sizes, and over buffers that are too short.
use crate::files::{Answer, answer, cut, file_of, with};
use readers::read_surface;
use std::process::Abort;
use std::test::*;
use words::Reader;

/// Two columns by two.
const SURFACE: [u32; 5] = [
    0x9002_0002,
    0x2000_0003,
    0x2000_8000,
    0x2000_7fff,
    0x2000_ffff,
];

/// Whether a surface is read, or else the number and the place of its refusal.
fn read(bytes: &[u8], buffer: &mut [i16]) -> Answer<()> {
    answer(read_surface(&mut Reader::new(bytes), buffer).map(|_| ()))
}

#[test]
fn heights_go_to_the_caller(rt: HostRuntime) -> Result<(), Fail> {
    let file = file_of(rt.alloc(), &SURFACE)?;
    let mut heights = [7; 5];
    assert_eq!(rt; read(&file, &mut heights), Ok(()));
    assert_eq!(rt; heights, [3, -32768, 32767, -1, 7]);
    Ok(())
}

/// Cut at every byte.
fn cut_everywhere(rt: &impl Abort, file: &[u8], heights: &mut [i16]) -> Result<(), Fail> {
    for n in 0..20 {
        assert_eq!(rt; read(cut(file, n), heights), Err((1, n / 4)));
    }
    Ok(())
}

/// Another word in the place of each height in turn.
fn each_height(
    rt: &(impl Abort + AllocGlobal),
    word: u32,
    by: u32,
    heights: &mut [i16],
) -> Result<(), Fail> {
    for place in 1..5 {
        let file = with(rt.alloc(), SURFACE, place, word)?;
        assert_eq!(rt; read(&file, heights), Err((by, place)));
    }
    Ok(())
}

#[test]
fn a_refused_surface_writes_no_height(rt: HostRuntime) -> Result<(), Fail> {
    let file = file_of(rt.alloc(), &SURFACE)?;
    let mut heights = [7; 5];
    cut_everywhere(&rt, &file, &mut heights)?;
    each_height(&rt, 0x2001_0000, 3, &mut heights)?;
    each_height(&rt, 0x3000_0000, 2, &mut heights)?;
    assert_eq!(rt; heights, [7; 5]);
    Ok(())
}

#[test]
fn every_kind_at_every_place_of_a_surface(rt: HostRuntime) -> Result<(), Fail> {
    for place in 0..5 {
        for kind in 0..16 {
            let expected = match (place, kind) {
                (0, 9) => Err((13, 0)),
                (0, _) => Err((2, 0)),
                (_, 2) => Ok(()),
                _ => Err((2, place)),
            };
            let file = with(rt.alloc(), SURFACE, place, kind * 0x1000_0000)?;
            let mut heights = [7; 4];
            assert_eq!(rt; read(&file, &mut heights), expected);
        }
    }
    Ok(())
}

/// A start word in place of its own, over a buffer of four heights.
fn start(rt: &HostRuntime, word: u32) -> Result<Answer<()>, Fail> {
    let file = with(rt.alloc(), SURFACE, 0, word)?;
    let mut heights = [7; 4];
    Ok(read(&file, &mut heights))
}

#[test]
fn sizes_come_before_the_buffer(rt: HostRuntime) -> Result<(), Fail> {
    assert_eq!(rt; start(&rt, 0x9000_0002)?, Err((13, 0)));
    assert_eq!(rt; start(&rt, 0x9002_0000)?, Err((13, 0)));
    assert_eq!(rt; start(&rt, 0x9041_0001)?, Err((13, 0)));
    assert_eq!(rt; start(&rt, 0x9001_0041)?, Err((13, 0)));
    assert_eq!(rt; start(&rt, 0x9fff_ffff)?, Err((13, 0)));
    assert_eq!(rt; start(&rt, 0x9001_0005)?, Err((18, 0)));
    assert_eq!(rt; start(&rt, 0x9040_0040)?, Err((18, 0)));
    assert_eq!(rt; start(&rt, 0x8002_0002)?, Err((2, 0)));
    Ok(())
}

#[test]
fn the_kind_comes_before_the_sizes(rt: HostRuntime) -> Result<(), Fail> {
    assert_eq!(rt; start(&rt, 0x8041_0001)?, Err((2, 0)));
    Ok(())
}

#[test]
fn the_buffer_comes_before_the_heights(rt: HostRuntime) -> Result<(), Fail> {
    let file = file_of(rt.alloc(), &[0x9002_0002, 0x3000_0000])?;
    let mut short = [7; 3];
    assert_eq!(rt; read(&file, &mut short), Err((18, 0)));
    let mut enough = [7; 4];
    assert_eq!(rt; read(&file, &mut enough), Err((2, 1)));
    assert_eq!(rt; read(cut(&file, 4), &mut enough), Err((1, 1)));
    Ok(())
}
