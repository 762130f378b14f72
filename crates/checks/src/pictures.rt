//! Pictures of a pile with every layer, over solids of three makes.
use crate::pile::{LayerNumbers, PileParts};
use crate::views::straight_down;
use lattice::Point;
use leaves::{AxisBox, Ball};
use march::Pixel;
use refusal::RefusalCode;
use std::test::Fail;

fn raised(z: i32) -> LayerNumbers {
    LayerNumbers {
        by: Point::new(0, 0, z),
        thickness: 2,
        most: 64,
    }
}

/// What pixel (i, 0) shows, looking straight down from height 100: a block that is lifted, and
/// beside it a ball of radius 1 about (9, 0, 0) that is thickened, both clipped.
fn picture(numbers: LayerNumbers, budget: u32, i: u32) -> Result<Result<Pixel, RefusalCode>, Fail> {
    let block = AxisBox::new(Point::new(-1, -1, 0), Point::new(1, 1, 0))?;
    let parts = PileParts {
        moved: &block,
        grown: Ball::new(Point::new(9, 0, 0), 1)?,
        clip: AxisBox::new(Point::new(-50, -50, 0), Point::new(50, 50, 90))?,
        numbers,
    };
    let mut records = [Pixel::Miss { probes: 9 }; 10];
    let view = straight_down(Point::new(0, 0, 100), 10, 1, 200);
    Ok(parts.picture(&mut records, view, budget, i, 0))
}

#[test]
fn a_pile_is_pictured(rt: HostRuntime) -> Result<(), Fail> {
    assert_eq!(rt;
        picture(raised(36), 2, 0)?,
        Ok(Pixel::Hit {
            depth: 64,
            probes: 2
        })
    );
    assert_eq!(rt;
        picture(raised(10), 2, 0)?,
        Ok(Pixel::Hit {
            depth: 90,
            probes: 3
        })
    );
    assert_eq!(rt;
        picture(raised(10), 2, 9)?,
        Ok(Pixel::Marching { t: 0, probes: 0 })
    );
    assert_eq!(rt;
        picture(raised(10), 99, 9)?,
        Ok(Pixel::Hit {
            depth: 97,
            probes: 4
        })
    );
    Ok(())
}

#[test]
fn a_refusal_has_its_number_and_place(rt: HostRuntime) -> Result<(), Fail> {
    assert_eq!(rt;
        picture(raised(-16384), 2, 0)?,
        Err(RefusalCode {
            number: 4,
            place: 3
        })
    );
    assert_eq!(rt;
        picture(raised(10), 2, 10)?,
        Err(RefusalCode {
            number: 19,
            place: 0
        })
    );
    Ok(())
}
