//! Jobs: truncated, of another kind, with a bit too many, out of range, and with two faults at
//! once.
use crate::files::{Answer, answer, cut, file_of, number, with};
use readers::read_job;
use std::process::Abort;
use std::test::*;
use words::Reader;

/// A job of two pixels, straight down from (0, 0, 20).
const JOB: [u32; 20] = [
    0xd000_0000,
    0x2000_0000,
    0x2000_0000,
    0x2000_0014,
    0x2000_000c,
    0x2000_0016,
    0x2000_0010,
    0x2000_0002,
    0x2000_0001,
    0x2000_0032,
    0x2000_0000,
    0x2000_0000,
    0x2000_0000,
    0x2000_0000,
    0x2000_ff9c,
    0x2000_ff9c,
    0x2000_ff9c,
    0x2000_0064,
    0x2000_0064,
    0x2000_0064,
];

/// Whether a job is read, or else the number and the place of its refusal.
fn read(bytes: &[u8]) -> Answer<()> {
    answer(read_job(&mut Reader::new(bytes)).map(|_| ()))
}

/// The same with one word in place of its own.
fn read_with(rt: &impl AllocGlobal, place: u32, word: u32) -> Result<Answer<()>, Fail> {
    let file = with(rt.alloc(), JOB, place, word)?;
    Ok(read(&file))
}

#[test]
fn a_job_cut_at_every_byte(rt: HostRuntime) -> Result<(), Fail> {
    let file = file_of(rt.alloc(), &JOB)?;
    for n in 0..80 {
        assert_eq!(rt; read(cut(&file, n)), Err((1, n / 4)));
    }
    assert_eq!(rt; read(&file), Ok(()));
    Ok(())
}

#[test]
fn every_kind_at_every_place_of_a_job(rt: HostRuntime) -> Result<(), Fail> {
    for place in 0..20 {
        let due = if place == 0 { 13 } else { 2 };
        for kind in 0..16 {
            if kind != due {
                let word = kind * 0x1000_0000 + 1;
                assert_eq!(rt; read_with(&rt, place, word)?, Err((2, place)));
            }
        }
    }
    Ok(())
}

#[test]
fn every_unnamed_bit_of_a_job(rt: HostRuntime) -> Result<(), Fail> {
    for bit in 0u32..28 {
        assert_eq!(rt;
            read_with(&rt, 0, 0xd000_0000 | (1u32 << bit))?,
            Err((3, 0))
        );
    }
    for place in 1..20 {
        for bit in 16u32..28 {
            assert_eq!(rt;
                read_with(&rt, place, 0x2000_0001 | (1u32 << bit))?,
                Err((3, place))
            );
        }
    }
    Ok(())
}

/// A number of the job in place of its own is refused by this number, at its place.
fn refused(rt: &(impl Abort + AllocGlobal), place: u32, n: i16, by: u32) -> Result<(), Fail> {
    assert_eq!(rt; read_with(rt, place, number(n))?, Err((by, place)));
    Ok(())
}

#[test]
fn numbers_of_a_job_out_of_range(rt: HostRuntime) -> Result<(), Fail> {
    for place in 1..4 {
        refused(&rt, place, -16385, 4)?;
        refused(&rt, place, 16384, 4)?;
    }
    for place in 4..7 {
        refused(&rt, place, -1, 5)?;
        refused(&rt, place, 13, 5)?;
        refused(&rt, place, 27, 5)?;
    }
    for place in 7..9 {
        refused(&rt, place, 0, 4)?;
        refused(&rt, place, 65, 4)?;
    }
    refused(&rt, 9, -1, 4)?;
    refused(&rt, 9, 4096, 4)?;
    refused(&rt, 10, -1, 4)?;
    refused(&rt, 10, 1024, 4)?;
    for place in 11..14 {
        refused(&rt, place, -16384, 4)?;
        refused(&rt, place, 16384, 4)?;
    }
    for place in 14..20 {
        refused(&rt, place, -16385, 4)?;
        refused(&rt, place, 16384, 4)?;
    }
    Ok(())
}

#[test]
fn a_bit_too_many_comes_first(rt: HostRuntime) -> Result<(), Fail> {
    // beside a row that does not move, and a width of 65
    assert_eq!(rt; read_with(&rt, 4, 0x2001_000d)?, Err((3, 4)));
    assert_eq!(rt; read_with(&rt, 7, 0x2001_0041)?, Err((3, 7)));
    Ok(())
}

#[test]
fn corners_come_last(rt: HostRuntime) -> Result<(), Fail> {
    assert_eq!(rt; read_with(&rt, 16, number(101))?, Err((6, 14)));
    assert_eq!(rt; read_with(&rt, 17, number(-101))?, Err((6, 14)));
    let crossed = with(rt.alloc(), JOB, 14, number(101))?;
    assert_eq!(rt; read(cut(&crossed, 79)), Err((1, 19)));
    let range = with(rt.alloc(), JOB, 4, number(13))?;
    assert_eq!(rt; read(cut(&range, 20)), Err((5, 4)));
    assert_eq!(rt; read(cut(&range, 19)), Err((1, 4)));
    Ok(())
}
