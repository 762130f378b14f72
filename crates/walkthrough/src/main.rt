//! One task from beginning to end, in printed lines.
#![tactic(auto)]

use anyhow::anyhow;
use lattice::Point;
use layers::{Cap, Meet, Shift, Thicken, Unite};
use leaves::{AxisBox, Ball};
use march::{MOST_FAR, Marching, Outcome, Settled, Stepped, ViewNumbers};
use solid::Solid;
use std::fmt;

mod played;

/// No ray takes more steps than this: each goes on by 1 or more.
const MOST_STEPS: u32 = MOST_FAR as u32 + 1;

fn refused<F: fmt::Display>(rt: &HostRuntime, what: &str, fault: &F) -> anyhow::Result<()> {
    println!(rt; "{what} is {fault}")?;
    Ok(())
}

fn settled(rt: &HostRuntime, ray: Settled) -> anyhow::Result<()> {
    match ray.outcome() {
        Outcome::Hit { depth } => println!(rt; "  hit at depth {depth}, {} probes", ray.probes())?,
        Outcome::Miss => println!(rt; "  miss, {} probes", ray.probes())?,
    }
    Ok(())
}

/// Sends the ray of pixel (i, j), and tells each probe.
fn send<S: Solid>(
    rt: &HostRuntime,
    pile: &S,
    view: ViewNumbers,
    i: u32,
    j: u32,
) -> anyhow::Result<()> {
    let mut ray = match Marching::new(view, i, j) {
        Ok(ray) => ray,
        Err(fault) => return refused(rt, "the ray", &fault),
    };
    println!(rt; "pixel ({i}, {j}) is sent")?;
    for _ in 0..MOST_STEPS {
        let at = ray.next_point();
        if let Ok(c) = pile.clearance(at) {
            println!(rt;
                "  t {}: at ({}, {}, {}) the clearance is {c}",
                ray.t(),
                at.x,
                at.y,
                at.z
            )?;
        }
        match ray.step(pile) {
            Ok(Stepped::On(next)) => ray = next,
            Ok(Stepped::Done(end)) => return settled(rt, end),
            Err((fault, _)) => return refused(rt, "the step", &fault),
        }
    }
    Ok(())
}

/// Rows of the table of directions: straight down, along x and along y.
const STRAIGHT_DOWN: i32 = 12;

const ALONG_X: i32 = 22;

const ALONG_Y: i32 = 16;

/// A view straight down from an origin, its columns along x and its rows along y.
fn straight_down(origin: Point, width: i32, height: i32, far: i32) -> ViewNumbers {
    ViewNumbers {
        origin,
        ray: STRAIGHT_DOWN,
        across: ALONG_X,
        down: ALONG_Y,
        width,
        height,
        far,
    }
}

/// What was made; the solids of this task are never refused.
fn made<T, F: fmt::Display + Drop>(res: Result<T, F>) -> anyhow::Result<T> {
    res.map_err(|fault| anyhow!("a solid of the walkthrough is {fault}"))
}

/// A boss under a clamp: a ball united with a box that is shifted into place, both thickened by
/// the stylus, cut off by a clip box, with no stride above 64.
fn send_all(rt: &HostRuntime) -> anyhow::Result<()> {
    let boss = made(Ball::new(Point::new(0, 0, 0), 20))?;
    let bar = made(AxisBox::new(Point::new(0, 0, 0), Point::new(30, 8, 6)))?;
    let clamp = made(Shift::new(bar, Point::new(10, -4, 12)))?;
    let grown = made(Thicken::new(Unite::new(boss, clamp), 2))?;
    let clip = made(AxisBox::new(Point::new(-100, -100, -100), Point::new(100, 100, 100)))?;
    let pile = made(Cap::new(Meet::new(clip, grown), 64))?;
    println!(rt;
        "the pile: cap 64 over meet of a clip box with thicken 2 over unite of a ball and a shifted box"
    )?;
    let view = straight_down(Point::new(-40, 0, 200), 64, 64, 400);
    send(rt, &pile, view, 40, 0)?;
    send(rt, &pile, view, 52, 0)?;
    send(rt, &pile, view, 5, 30)?;
    send(rt, &pile, view, 64, 0)?;
    Ok(())
}

fn tell(rt: &HostRuntime) -> anyhow::Result<()> {
    send_all(rt)?;
    println!(rt; "")?;
    played::play(rt)
}

fn main(rt: HostRuntime) -> anyhow::Result<()> {
    tell(&rt)
}
