//! Scenes: whole, damaged, too long, and too far from their reach.
use crate::files::{Answer, answer, cut, file_of, number, with};
use readers::read_scene;
use scene::Scene;
use solid::Solid;
use std::test::*;
use words::Reader;

// Words as a file has them, so that their kinds come from outside the code.
const BALL: u32 = 0x3000_0000;

const BOX: u32 = 0x4000_0000;

const UNITE: u32 = 0x5000_0000;

const MEET: u32 = 0x6000_0000;

const SHIFT: u32 = 0x7000_0000;

const THICKEN: u32 = 0x8000_0000;

const ZERO: u32 = 0x2000_0000;
/// The farthest shift on an axis.
const FARTHEST: u32 = 0x2000_3fff;

/// A word of each kind that a scene does not have as a node or a start.
const OTHER_KINDS: [u32; 9] = [
    0,
    0x2000_0000,
    0x9000_0000,
    0xa000_0000,
    0xb000_0000,
    0xc000_0000,
    0xd000_0000,
    0xe000_0000,
    0xf000_0000,
];

/// A ball and a box, united, shifted and thickened.
const SCENE: [u32; 20] = [
    0x1000_0013,
    BALL,
    ZERO,
    ZERO,
    ZERO,
    0x2000_0005,
    BOX,
    ZERO,
    ZERO,
    ZERO,
    0x2000_0002,
    0x2000_0002,
    0x2000_0002,
    UNITE,
    SHIFT,
    0x2000_0001,
    ZERO,
    ZERO,
    THICKEN,
    0x2000_0003,
];

/// The reach of a scene, or the number and the place of its refusal.
fn read(bytes: &[u8]) -> Answer<u32> {
    let mut scene = Scene::new();
    answer(read_scene(&mut Reader::new(bytes), &mut scene))?;
    Ok(scene.reach())
}

fn read_words(rt: &HostRuntime, words: &[u32]) -> Result<Answer<u32>, Fail> {
    let file = file_of(rt.alloc(), words)?;
    Ok(read(&file))
}

fn read_with(rt: &HostRuntime, place: u32, word: u32) -> Result<Answer<u32>, Fail> {
    let file = with(rt.alloc(), SCENE, place, word)?;
    Ok(read(&file))
}

#[test]
fn a_scene_cut_at_every_byte(rt: HostRuntime) -> Result<(), Fail> {
    let file = file_of(rt.alloc(), &SCENE)?;
    for n in 0..80 {
        assert_eq!(rt; read(cut(&file, n)), Err((1, n / 4)));
    }
    assert_eq!(rt; read(&file), Ok(1_048_575));
    Ok(())
}

#[test]
fn kinds_and_bits_of_a_scene(rt: HostRuntime) -> Result<(), Fail> {
    for word in OTHER_KINDS {
        assert_eq!(rt; read_with(&rt, 0, word)?, Err((2, 0)));
        assert_eq!(rt; read_with(&rt, 1, word)?, Err((2, 1)));
        assert_eq!(rt; read_with(&rt, 13, word)?, Err((2, 13)));
    }
    for place in [1, 6, 13, 14, 18] {
        assert_eq!(rt; read_with(&rt, place, BALL + 1)?, Err((3, place)));
    }
    for place in [2, 5, 9, 15, 19] {
        assert_eq!(rt; read_with(&rt, place, BALL)?, Err((2, place)));
        assert_eq!(rt; read_with(&rt, place, 0x2001_0000)?, Err((3, place)));
    }
    Ok(())
}

/// How many nodes of that scene stand before a place; none of its nodes is at another.
fn standing_at(place: u32) -> Option<u32> {
    match place {
        1 => Some(0),
        6 => Some(1),
        13 => Some(2),
        14 => Some(1),
        18 => Some(1),
        _ => None,
    }
}

/// How many numbers a node of a kind has, and how many nodes it takes. Kinds go here by the numbers
/// that a file has for them, so that a wrong number of a `Kind` is found.
fn shape(kind: u32) -> Option<(u32, u32)> {
    match kind {
        3 => Some((4, 0)),
        4 => Some((6, 0)),
        5 => Some((0, 2)),
        6 => Some((0, 2)),
        7 => Some((3, 1)),
        8 => Some((1, 1)),
        _ => None,
    }
}

/// The first place after the word of a node with so many numbers where the scene has no number
/// though one is due, or, where the next node is due, a number.
fn first_misfit(node: u32, numbers: u32) -> Option<u32> {
    let after = node.saturating_add(1);
    (after..20).take(numbers as usize + 1).find(|place| standing_at(*place).is_none()
        != (place.saturating_sub(node) <= numbers))
}

/// What the scene answers with a word of another kind, all of whose other bits are zero, in the
/// place of a node's.
fn with_node(place: u32, standing: u32, kind: u32) -> Answer<u32> {
    match shape(kind) {
        None => Err((2, place)),
        Some((numbers, takes)) => {
            if numbers > 19u32.saturating_sub(place) {
                Err((12, place))
            } else if standing < takes {
                Err((9, place))
            } else {
                match first_misfit(place, numbers) {
                    Some(misfit) => Err((2, misfit)),
                    // a meet in the place of the unite, which is thickened later
                    None if kind == 6 => Err((10, 18)),
                    None => Ok(1_048_575),
                }
            }
        }
    }
}

/// The same, at every place.
fn with_kind(place: u32, kind: u32) -> Answer<u32> {
    match standing_at(place) {
        Some(standing) => with_node(place, standing, kind),
        None if place == 0 => { if kind == 1 { Err((7, 0)) } else { Err((2, 0)) } }
        None if kind != 2 => Err((2, place)),
        // without its one step the shift takes nothing of the reach
        None if place == 15 => Ok(1_048_576),
        None => Ok(1_048_575),
    }
}

#[test]
fn every_kind_at_every_place_of_a_scene(rt: HostRuntime) -> Result<(), Fail> {
    for place in 0..20 {
        for kind in 0..16 {
            assert_eq!(rt;
                read_with(&rt, place, kind * 0x1000_0000)?,
                with_kind(place, kind)
            );
        }
    }
    Ok(())
}

#[test]
fn unnamed_bits_of_a_scene(rt: HostRuntime) -> Result<(), Fail> {
    for place in 1..20 {
        let (due, named) = match standing_at(place) {
            Some(_) => (BALL, 0u32),
            None => (ZERO, 16),
        };
        for bit in named..28 {
            assert_eq!(rt;
                read_with(&rt, place, due | (1u32 << bit))?,
                Err((3, place))
            );
        }
    }
    Ok(())
}

#[test]
fn numbers_of_a_scene_out_of_range(rt: HostRuntime) -> Result<(), Fail> {
    assert_eq!(rt; read_with(&rt, 2, number(-16385))?, Err((4, 2)));
    assert_eq!(rt; read_with(&rt, 5, number(-1))?, Err((4, 5)));
    assert_eq!(rt; read_with(&rt, 5, number(16384))?, Err((4, 5)));
    assert_eq!(rt; read_with(&rt, 12, number(16384))?, Err((4, 12)));
    assert_eq!(rt; read_with(&rt, 10, number(-1))?, Err((6, 6)));
    assert_eq!(rt; read_with(&rt, 15, number(-16384))?, Err((4, 15)));
    assert_eq!(rt; read_with(&rt, 19, number(1024))?, Err((4, 19)));
    assert_eq!(rt; read_with(&rt, 19, number(-1))?, Err((4, 19)));
    Ok(())
}

#[test]
fn counts_of_a_scene(rt: HostRuntime) -> Result<(), Fail> {
    assert_eq!(rt; read_with(&rt, 0, 0x1000_0000)?, Err((7, 0)));
    assert_eq!(rt; read_with(&rt, 0, 0x1000_0701)?, Err((7, 0)));
    assert_eq!(rt; read_with(&rt, 0, 0x1fff_ffff)?, Err((7, 0)));
    assert_eq!(rt; read_with(&rt, 0, 0x1000_0700)?, Err((1, 20)));
    assert_eq!(rt; read_with(&rt, 0, 0x1000_0001)?, Err((12, 1)));
    assert_eq!(rt; read_with(&rt, 0, 0x1000_0005)?, Ok(1_048_576));
    assert_eq!(rt; read_with(&rt, 0, 0x1000_000b)?, Err((12, 6)));
    assert_eq!(rt; read_with(&rt, 0, 0x1000_000c)?, Err((12, 12)));
    assert_eq!(rt; read_with(&rt, 0, 0x1000_0012)?, Err((12, 18)));
    Ok(())
}

#[test]
fn which_of_two_faults_comes_first(rt: HostRuntime) -> Result<(), Fail> {
    // too few nodes stand, and the numbers pass the count: 12 comes first
    assert_eq!(rt; read_words(&rt, &[0x1000_0001, SHIFT])?, Err((12, 1)));
    assert_eq!(rt;
        read_words(&rt, &[0x1000_0004, SHIFT, ZERO, ZERO, ZERO])?,
        Err((9, 1))
    );
    assert_eq!(rt; read_words(&rt, &[0x1000_0001, UNITE])?, Err((9, 1)));
    assert_eq!(rt; read_words(&rt, &[0x1000_0001, MEET])?, Err((9, 1)));
    assert_eq!(rt;
        read_words(&rt, &[0x1000_0006, BALL, ZERO, ZERO, ZERO, ZERO, UNITE])?,
        Err((9, 6))
    );
    // a meet is thickened, by a number that is out of range: 10 comes first
    let thickened = [
        0x1000_000d,
        BALL,
        ZERO,
        ZERO,
        ZERO,
        ZERO,
        BALL,
        ZERO,
        ZERO,
        ZERO,
        ZERO,
        MEET,
        THICKEN,
        0x2000_7fff,
    ];
    assert_eq!(rt; read_words(&rt, &thickened)?, Err((10, 12)));
    // it passes the count too: 12 comes first
    let uncounted = with(rt.alloc(), thickened, 0, 0x1000_000c)?;
    assert_eq!(rt; read(&uncounted), Err((12, 12)));
    // a shift of nothing, by a number that is out of range: 9 comes first
    assert_eq!(rt;
        read_words(&rt, &[0x1000_0004, SHIFT, number(16384), ZERO, ZERO])?,
        Err((9, 1))
    );
    // crossed corners, and a later number out of range: the number comes first
    let crossed = [
        0x1000_0007,
        BOX,
        0x2000_0001,
        ZERO,
        ZERO,
        ZERO,
        ZERO,
        0x2000_7fff,
    ];
    assert_eq!(rt; read_words(&rt, &crossed)?, Err((4, 7)));
    Ok(())
}

#[test]
fn which_of_two_faults_of_one_word_comes_first(rt: HostRuntime) -> Result<(), Fail> {
    // a start word of another kind that counts nothing, a node of no kind with a bit too many
    assert_eq!(rt; read_with(&rt, 0, 0x2000_0000)?, Err((2, 0)));
    assert_eq!(rt; read_with(&rt, 13, 0x2000_0001)?, Err((2, 13)));
    // a bit too many, and too few nodes stand
    assert_eq!(rt; read_words(&rt, &[0x1000_0001, UNITE + 1])?, Err((3, 1)));
    // nothing stands that could be inexact
    assert_eq!(rt;
        read_words(&rt, &[0x1000_0002, THICKEN, ZERO])?,
        Err((9, 1))
    );
    Ok(())
}

/// These words, then so many nodes of one kind, and then the last words.
fn chain(
    rt: &HostRuntime,
    first: &[u32],
    node: &[u32],
    times: u32,
    last: &[u32],
) -> Result<Answer<u32>, Fail> {
    let mut words = Vec::new(rt.alloc());
    words.extend_from_slice(first)?;
    for _ in 0..times {
        words.extend_from_slice(node)?;
    }
    words.extend_from_slice(last)?;
    read_words(rt, &words)
}

/// A ball, and then so many nodes of these words, under a start word.
fn ball_and(rt: &HostRuntime, start: u32, node: &[u32], times: u32) -> Result<Answer<u32>, Fail> {
    let ball = [start, BALL, ZERO, ZERO, ZERO, ZERO];
    chain(rt, &ball, node, times, &[])
}

#[test]
fn at_most_256_nodes(rt: HostRuntime) -> Result<(), Fail> {
    assert_eq!(rt;
        ball_and(&rt, 0x1000_0203, &[THICKEN, ZERO], 255)?,
        Ok(1_048_576)
    );
    assert_eq!(rt;
        ball_and(&rt, 0x1000_0205, &[THICKEN, ZERO], 256)?,
        Err((8, 516))
    );
    Ok(())
}

#[test]
fn the_257th_node_comes_before_its_numbers(rt: HostRuntime) -> Result<(), Fail> {
    // its number passes the count too
    assert_eq!(rt;
        ball_and(&rt, 0x1000_0204, &[THICKEN, ZERO], 256)?,
        Err((8, 516))
    );
    Ok(())
}

#[test]
fn the_257th_node_comes_before_what_it_takes(rt: HostRuntime) -> Result<(), Fail> {
    let ball = [0x1000_0204, BALL, ZERO, ZERO, ZERO, ZERO];
    let grown = [THICKEN, ZERO];
    // of the two that it would unite one stands; a bit too many comes before it
    assert_eq!(rt; chain(&rt, &ball, &grown, 255, &[UNITE])?, Err((8, 516)));
    assert_eq!(rt;
        chain(&rt, &ball, &grown, 255, &[UNITE + 1])?,
        Err((3, 516))
    );
    // what it would thicken is a meet, shifted 253 times
    let meet = [
        0x1000_0401,
        BALL,
        ZERO,
        ZERO,
        ZERO,
        ZERO,
        BALL,
        ZERO,
        ZERO,
        ZERO,
        ZERO,
        MEET,
    ];
    assert_eq!(rt;
        chain(&rt, &meet, &[SHIFT, ZERO, ZERO, ZERO], 253, &grown)?,
        Err((8, 1024))
    );
    Ok(())
}

/// So many boxes, under a start word.
fn boxes(rt: &HostRuntime, start: u32, times: u32) -> Result<Answer<u32>, Fail> {
    let mut words = Vec::new(rt.alloc());
    words.push(start)?;
    for _ in 0..times {
        words.extend_from_slice(&[BOX, ZERO, ZERO, ZERO, ZERO, ZERO, ZERO])?;
    }
    read_words(rt, &words)
}

#[test]
fn the_most_words_are_256_boxes(rt: HostRuntime) -> Result<(), Fail> {
    assert_eq!(rt; boxes(&rt, 0x1000_0007, 1)?, Ok(1_048_576));
    assert_eq!(rt; boxes(&rt, 0x1000_0700, 256)?, Err((12, 1792)));
    assert_eq!(rt; boxes(&rt, 0x1000_0701, 257)?, Err((7, 0)));
    Ok(())
}

#[test]
fn a_chain_of_shifts_uses_up_the_reach(rt: HostRuntime) -> Result<(), Fail> {
    let shift = [SHIFT, FARTHEST, ZERO, ZERO];
    assert_eq!(rt; ball_and(&rt, 0x1000_00fd, &shift, 62)?, Ok(32_830));
    assert_eq!(rt; ball_and(&rt, 0x1000_0101, &shift, 63)?, Ok(16_447));
    assert_eq!(rt; ball_and(&rt, 0x1000_0105, &shift, 64)?, Ok(64));
    assert_eq!(rt; ball_and(&rt, 0x1000_0109, &shift, 65)?, Err((11, 262)));
    // a number out of range comes before the reach, which is 64 there
    let ball = [0x1000_0109, BALL, ZERO, ZERO, ZERO, ZERO];
    assert_eq!(rt;
        chain(&rt, &ball, &shift, 64, &[SHIFT, number(16384), ZERO, ZERO])?,
        Err((4, 263))
    );
    Ok(())
}
