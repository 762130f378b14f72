//! A log of a plate, played line by line, with the clamp taken out in the middle of the work.
use super::{made, refused, straight_down};
use lattice::Point;
use layers::Unite;
use leaves::{AxisBox, Sheet, Surface};
use march::Pixel;
use plate::{Plate, PlateFault};
use solid::Solid;

/// The sides of the plate, and its records: one for each pixel, and one that stays as it is.
const WIDTH: i32 = 4;

const HEIGHT: i32 = 2;

const RECORDS: usize = 9;
/// The bytes of the plate's image: 4 for each of its two first words, and 4 a pixel.
const IMAGE: usize = 40;
/// A byte too few.
const SHORT: usize = 39;

/// What a sweep or a touch answered.
fn counted(
    rt: &HostRuntime,
    what: &str,
    answer: Result<(u32, u32), PlateFault>,
) -> anyhow::Result<()> {
    match answer {
        Ok((spent, left)) => println!(rt; "{what}: {spent} probes spent, {left} still marching")?,
        Err(fault) => return refused(rt, what, &fault),
    }
    Ok(())
}

/// What a read answered.
fn state(rt: &HostRuntime, answer: Result<Pixel, PlateFault>) -> anyhow::Result<()> {
    match answer {
        Ok(Pixel::Marching { t, probes }) => println!(rt; "  marching at {t}, {probes} probes")?,
        Ok(Pixel::Hit { depth, probes }) => println!(rt; "  hit at {depth}, {probes} probes")?,
        Ok(Pixel::Miss { probes }) => println!(rt; "  miss, {probes} probes")?,
        Err(fault) => return refused(rt, "the read", &fault),
    }
    Ok(())
}

/// Reads every pixel, row by row.
fn read_all(rt: &HostRuntime, plate: &Plate) -> anyhow::Result<()> {
    for j in 0..HEIGHT as u32 {
        for i in 0..WIDTH as u32 {
            println!(rt; "read ({i}, {j})")?;
            state(rt, plate.read(i, j))?;
        }
    }
    Ok(())
}

/// Writes the image into so many bytes.
fn write_into(rt: &HostRuntime, plate: &Plate, out: &mut [u8]) -> anyhow::Result<()> {
    match plate.write(out) {
        Ok(length) => println!(rt; "write: {length} bytes")?,
        Err(fault) => return refused(rt, "the write", &fault),
    }
    for word in out.chunks(4) {
        for byte in word {
            print!(rt; " {byte:02x}")?;
        }
        println!(rt; "")?;
    }
    Ok(())
}

/// The first part of the log, over the stock under its clamp.
fn under_the_clamp<S: Solid>(
    rt: &HostRuntime,
    plate: &mut Plate,
    clamped: &S,
) -> anyhow::Result<()> {
    counted(
        rt,
        "sweep over stock and clamp, budget 10",
        plate.sweep(clamped, 10),
    )?;
    let mut out = [0; IMAGE];
    write_into(rt, plate, &mut out)?;
    read_all(rt, plate)
}

/// The rest of it, over the stock alone.
fn without_it<S: Solid>(rt: &HostRuntime, plate: &mut Plate, stock: &S) -> anyhow::Result<()> {
    counted(
        rt,
        "touch (3, 1) over the stock, budget 2",
        plate.touch(3, 1, stock, 2),
    )?;
    counted(
        rt,
        "touch (4, 1) over the stock, budget 2",
        plate.touch(4, 1, stock, 2),
    )?;
    counted(
        rt,
        "sweep over the stock, no bound",
        plate.sweep(stock, u32::MAX),
    )?;
    let mut short = [0; SHORT];
    write_into(rt, plate, &mut short)?;
    let mut out = [0; IMAGE];
    write_into(rt, plate, &mut out)?;
    read_all(rt, plate)
}

/// A scanned piece of stock, four columns by two, under a clamp that lies over two of them.
pub(super) fn play(rt: &HostRuntime) -> anyhow::Result<()> {
    let heights: [i16; 8] = [3, 3, 2, 0, 1, 1, 1, -30];
    let stock = Surface::new(made(Sheet::check(WIDTH, HEIGHT, &heights))?);
    let clamp = made(AxisBox::new(Point::new(1, 0, 5), Point::new(2, 1, 8)))?;
    let clamped = Unite::new(&stock, clamp);
    let mut records = [Pixel::Miss { probes: 0 }; RECORDS];
    let mut plate = Plate::new(&mut records);
    if let Err(fault) = plate.open(straight_down(Point::new(0, 0, 20), WIDTH, HEIGHT, 40)) {
        return refused(rt, "the opening", &fault);
    }
    println!(rt; "a plate of {WIDTH} by {HEIGHT} pixels is opened")?;
    under_the_clamp(rt, &mut plate, &clamped)?;
    println!(rt; "the clamp is taken out")?;
    without_it(rt, &mut plate, &stock)
}
