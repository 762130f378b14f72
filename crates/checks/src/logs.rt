//! Logs of a plate: other solids, budgets, refused calls and openings, in one order and another.
use crate::empty::Empty;
use crate::views::straight_down;
use lattice::Point;
use leaves::AxisBox;
use march::{Pixel, ViewFault, ViewNumbers};
use plate::{Plate, PlateFault};
use std::test::Fail;

/// Straight down from height 100.
fn view(width: i32, height: i32, far: i32) -> ViewNumbers {
    straight_down(Point::new(0, 0, 100), width, height, far)
}

const UNTOUCHED: Pixel = Pixel::Miss { probes: 9 };

#[test]
fn budgets_of_none_of_one_and_of_just_enough(rt: HostRuntime) -> Result<(), Fail> {
    let stock = AxisBox::new(Point::new(-1, -1, 0), Point::new(1, 1, 0))?;
    let mut records = [UNTOUCHED; 3];
    let mut plate = Plate::new(&mut records);
    assert_eq!(rt; plate.sweep(&stock, 5), Ok((0, 0)));
    assert_eq!(rt; plate.open(view(2, 1, 100)), Ok(()));
    assert_eq!(rt; plate.sweep(&stock, 0), Ok((0, 2)));
    assert_eq!(rt; plate.sweep(&stock, 1), Ok((1, 2)));
    assert_eq!(rt; plate.read(0, 0), Ok(Pixel::Marching { t: 100, probes: 1 }));
    assert_eq!(rt; plate.read(1, 0), Ok(Pixel::Marching { t: 0, probes: 0 }));
    assert_eq!(rt; plate.sweep(&stock, 3), Ok((3, 0)));
    assert_eq!(rt; plate.sweep(&stock, u32::MAX), Ok((0, 0)));
    assert_eq!(rt;
        plate.read(1, 0),
        Ok(Pixel::Hit {
            depth: 100,
            probes: 2,
        })
    );
    assert_eq!(rt; records[2], UNTOUCHED);
    Ok(())
}

#[test]
fn refused_calls_change_nothing(rt: HostRuntime) -> Result<(), Fail> {
    let stock = AxisBox::new(Point::new(-1, -1, 0), Point::new(1, 1, 0))?;
    let mut records = [UNTOUCHED; 2];
    let mut plate = Plate::new(&mut records);
    assert_eq!(rt; plate.read(0, 0), Err(PlateFault::NoPixel));
    assert_eq!(rt; plate.open(view(3, 1, 100)), Err(PlateFault::TooFewRecords));
    assert_eq!(rt;
        plate.open(view(65, 1, 100)),
        Err(PlateFault::View(ViewFault::Range { place: 7 }))
    );
    assert_eq!(rt; plate.open(view(1, 2, 99)), Ok(()));
    assert_eq!(rt;
        plate.sweep(&Empty::new(32766), 5),
        Err(PlateFault::Shallow)
    );
    assert_eq!(rt;
        plate.touch(1, 0, &Empty::new(32766), 5),
        Err(PlateFault::NoPixel)
    );
    assert_eq!(rt;
        plate.touch(0, 1, &Empty::new(32766), 5),
        Err(PlateFault::Shallow)
    );
    let mut out = [7; 16];
    assert_eq!(rt; plate.write(&mut out), Err(PlateFault::StillMarching));
    assert_eq!(rt; plate.touch(0, 1, &stock, u32::MAX), Ok((1, 0)));
    assert_eq!(rt; plate.read(0, 0), Ok(Pixel::Marching { t: 0, probes: 0 }));
    assert_eq!(rt; plate.sweep(&stock, 1), Ok((1, 0)));
    assert_eq!(rt; plate.write(&mut out[0..15]), Err(PlateFault::NoRoom));
    assert_eq!(rt; out, [7; 16]);
    assert_eq!(rt; plate.write(&mut out), Ok(16));
    assert_eq!(rt;
        out,
        [2, 0, 1, 0xa0, 99, 0, 0, 0x20, 1, 0, 0, 0xc0, 1, 0, 0, 0xc0]
    );
    Ok(())
}

#[test]
fn another_solid_in_mid_work_and_opened_anew(rt: HostRuntime) -> Result<(), Fail> {
    let clamp = AxisBox::new(Point::new(0, 0, 50), Point::new(0, 0, 60))?;
    let stock = AxisBox::new(Point::new(-1, -1, 0), Point::new(1, 1, 0))?;
    let mut records = [UNTOUCHED; 4];
    let mut plate = Plate::new(&mut records);
    assert_eq!(rt; plate.open(view(2, 2, 100)), Ok(()));
    assert_eq!(rt; plate.touch(0, 0, &clamp, u32::MAX), Ok((2, 0)));
    assert_eq!(rt; plate.sweep(&stock, u32::MAX), Ok((6, 0)));
    assert_eq!(rt;
        plate.read(0, 0),
        Ok(Pixel::Hit {
            depth: 40,
            probes: 2,
        })
    );
    assert_eq!(rt;
        plate.read(1, 1),
        Ok(Pixel::Hit {
            depth: 100,
            probes: 2,
        })
    );
    assert_eq!(rt; plate.open(view(1, 1, 3)), Ok(()));
    assert_eq!(rt; plate.read(0, 0), Ok(Pixel::Marching { t: 0, probes: 0 }));
    assert_eq!(rt; plate.sweep(&Empty::new(32767), 3), Ok((3, 1)));
    assert_eq!(rt; plate.sweep(&Empty::new(32767), 3), Ok((1, 0)));
    assert_eq!(rt; plate.read(0, 0), Ok(Pixel::Miss { probes: 4 }));
    Ok(())
}
