//! Where the reach stops a shift, a question and a step.
use crate::empty::Empty;
use crate::views::straight_down;
use lattice::Point;
use layers::Shift;
use march::{Marching, ViewNumbers};
use refusal::Refusal;
use solid::{QuestionFault, Solid};
use std::test::Fail;

fn along_x(x: i32) -> Point {
    Point::new(x, 0, 0)
}

fn one_pixel() -> ViewNumbers {
    straight_down(along_x(0), 1, 1, 10)
}

/// The number by which a step over the solid is refused, if it is.
fn step_number<S: Solid>(solid: &S) -> Result<Option<u32>, Fail> {
    match Marching::new(one_pixel(), 0, 0)?.step(solid) {
        Ok(_) => Ok(None),
        Err((fault, _)) => Ok(Some(fault.number())),
    }
}

/// The number by which a shift of the solid is refused, if it is.
fn shift_number<S: Solid + Drop>(solid: S, by: Point) -> Option<u32> {
    Shift::new(solid, by).err().map(|fault| fault.number())
}

#[test]
fn a_shift_takes_from_the_reach(rt: HostRuntime) -> Result<(), Fail> {
    let once = Shift::new(Empty::new(49150), along_x(16383))?;
    assert_eq!(rt; once.reach(), 32767);
    assert_eq!(rt; step_number(&once)?, None);
    let twice = Shift::new(once, along_x(-1))?;
    assert_eq!(rt; twice.reach(), 32766);
    assert_eq!(rt; step_number(&twice)?, Some(16));
    assert_eq!(rt; shift_number(Empty::new(16383), along_x(-16383)), None);
    assert_eq!(rt; shift_number(Empty::new(16382), along_x(-16383)), Some(11));
    assert_eq!(rt; shift_number(Empty::new(0), along_x(-16384)), Some(4));
    Ok(())
}

#[test]
fn a_question_is_answered_within_the_reach(rt: HostRuntime) {
    let solid = Empty::new(100);
    assert_eq!(rt; solid.clearance(along_x(-100)), Ok(1));
    assert_eq!(rt;
        solid.clearance(along_x(101)),
        Err(QuestionFault::BeyondReach)
    );
    assert_eq!(rt;
        solid.clearance(along_x(i32::MIN)),
        Err(QuestionFault::BeyondReach)
    );
}

#[test]
fn a_ray_is_made_of_a_pixel_that_there_is(rt: HostRuntime) -> Result<(), Fail> {
    match Marching::new(one_pixel(), 0, 1) {
        Ok(_) => Err(Fail::new("a ray of no pixel")),
        Err(fault) => {
            assert_eq!(rt; fault.number(), 19);
            Ok(())
        },
    }
}
