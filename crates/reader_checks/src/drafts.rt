//! Scenes built by calls: too many nodes, and shifts that use up the reach.
use crate::files::{Answer, answer};
use lattice::Point;
use scene::{Draft, DraftFault, Scene};
use solid::Solid;
use std::test::*;

const ORIGIN: Point = Point { x: 0, y: 0, z: 0 };
/// The farthest shift on an axis.
const FARTHEST: Point = Point {
    x: 0,
    y: -16_383,
    z: 0,
};

/// The reach of the scene, or the number and the place of a refused call.
fn reach_after(called: Result<(), DraftFault>, draft: &Draft) -> Answer<u32> {
    let mut scene = Scene::new();
    answer(called.and(scene.fill(draft)))?;
    Ok(scene.reach())
}

/// A ball, and so many shifts of it.
fn shifts(draft: &mut Draft, times: u32) -> Result<(), DraftFault> {
    draft.ball(ORIGIN, 5)?;
    for _ in 0..times {
        draft.shift(FARTHEST)?;
    }
    Ok(())
}

fn shifted(times: u32) -> Answer<u32> {
    let mut draft = Draft::new();
    let called = shifts(&mut draft, times);
    reach_after(called, &draft)
}

#[test]
fn shifts_use_up_the_reach(rt: HostRuntime) -> Result<(), Fail> {
    assert_eq!(rt; shifted(62), Ok(32_830));
    assert_eq!(rt; shifted(63), Ok(16_447));
    assert_eq!(rt; shifted(64), Ok(64));
    assert_eq!(rt; shifted(65), Err((11, 0)));
    Ok(())
}

/// So many balls.
fn balls(draft: &mut Draft, times: u32) -> Result<(), DraftFault> {
    for _ in 0..times {
        draft.ball(ORIGIN, 0)?;
    }
    Ok(())
}

#[test]
fn at_most_256_nodes(rt: HostRuntime) -> Result<(), Fail> {
    let mut draft = Draft::new();
    let most = balls(&mut draft, 256);
    assert_eq!(rt; reach_after(most, &draft), Err((12, 0)));
    assert_eq!(rt; draft.nodes(), 256);
    assert_eq!(rt; draft.standing(), 256);
    // there is no room, whatever else is wrong with the node
    let ball = draft.ball(ORIGIN, -1);
    assert_eq!(rt; reach_after(ball, &draft), Err((8, 0)));
    let unite = draft.unite();
    assert_eq!(rt; reach_after(unite, &draft), Err((8, 0)));
    assert_eq!(rt; draft.standing(), 256);
    Ok(())
}

#[test]
fn which_of_two_faults_comes_first(rt: HostRuntime) -> Result<(), Fail> {
    let mut draft = Draft::new();
    // nothing stands, and the number is out of range
    let shift = draft.shift(Point {
        x: 0,
        y: 0,
        z: 16_384,
    });
    assert_eq!(rt; reach_after(shift, &draft), Err((9, 0)));
    let thicken = draft.thicken(1024);
    assert_eq!(rt; reach_after(thicken, &draft), Err((9, 0)));
    let two = balls(&mut draft, 2);
    assert_eq!(rt; reach_after(two, &draft), Err((12, 0)));
    let meet = draft.meet();
    assert_eq!(rt; reach_after(meet, &draft), Ok(1_048_576));
    // a meet is not exact, and the number is out of range
    let thicken = draft.thicken(1024);
    assert_eq!(rt; reach_after(thicken, &draft), Err((10, 0)));
    let shift = draft.shift(Point {
        x: 0,
        y: 0,
        z: 16_384,
    });
    assert_eq!(rt; reach_after(shift, &draft), Err((4, 3)));
    Ok(())
}
