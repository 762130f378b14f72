//! A ball under 62 to 65 shifts.
// Types nest at most 64 deep where they are written. So a function that is generic makes some of
// the shifts, and hands what it made to the next.
use lattice::Point;
use layers::{LayerFault, Shift};
use leaves::Ball;
use refusal::Refusal;
use solid::Solid;
use std::test::Fail;

/// The farthest shift on an axis.
const FARTHEST: Point = Point {
    x: 16_383,
    y: 0,
    z: 0,
};

/// A solid under four shifts.
type Four<S> = Shift<Shift<Shift<Shift<S>>>>;

fn four<S: Solid + Drop>(solid: S) -> Result<Four<S>, LayerFault> {
    let once = Shift::new(solid, FARTHEST)?;
    let twice = Shift::new(once, FARTHEST)?;
    let thrice = Shift::new(twice, FARTHEST)?;
    Shift::new(thrice, FARTHEST)
}

fn sixteen<S: Solid + Drop>(solid: S) -> Result<Four<Four<Four<Four<S>>>>, LayerFault> {
    four(four(four(four(solid)?)?)?)
}

/// The reaches of a solid, of one shift of it and of two, and the number by which a third is
/// refused.
type Reaches = ([u32; 3], Option<u32>);

fn reaches<S: Solid + Drop>(solid: S) -> Result<Reaches, LayerFault> {
    let under_none = solid.reach();
    let once = Shift::new(solid, FARTHEST)?;
    let under_one = once.reach();
    let twice = Shift::new(once, FARTHEST)?;
    let under_two = twice.reach();
    let third = Shift::new(twice, FARTHEST).err();
    Ok((
        [under_none, under_one, under_two],
        third.map(|fault| fault.number()),
    ))
}

/// Those of the solid under 14 shifts more.
fn from_48<S: Solid + Drop>(solid: S) -> Result<Reaches, LayerFault> {
    let under_60 = four(four(four(solid)?)?)?;
    let under_61 = Shift::new(under_60, FARTHEST)?;
    reaches(Shift::new(under_61, FARTHEST)?)
}

/// Those of the solid under 30 shifts more.
fn from_32<S: Solid + Drop>(solid: S) -> Result<Reaches, LayerFault> {
    from_48(sixteen(solid)?)
}

/// Those of the solid under 46 shifts more.
fn from_16<S: Solid + Drop>(solid: S) -> Result<Reaches, LayerFault> {
    from_32(sixteen(solid)?)
}

#[test]
fn shifts_of_a_ball_use_up_the_reach(rt: HostRuntime) -> Result<(), Fail> {
    let ball = Ball::new(Point::new(0, 0, 0), 5)?;
    let answer = from_16(sixteen(ball)?)?;
    assert_eq!(rt; answer, ([32_830, 16_447, 64], Some(11)));
    Ok(())
}
