// Points, directions, lines and half-lines, worked by hand.

use plane_geom::{Direction, Meeting, Point, Support, angle_cmp, meet, minor, on, side};
use std::cmp::Ordering;
use std::test::Fail;

fn place(x: i128, y: i128) -> Result<Point, &'static str> {
    Point::new(x, y, 1).ok_or("far")
}

fn toward(a: i32, b: i32) -> Result<Direction, &'static str> {
    Direction::new(a, b).ok_or("not primitive")
}

fn line(x: i128, y: i128, a: i32, b: i32) -> Result<Support, &'static str> {
    Ok(Support::Line {
        at: place(x, y)?,
        dir: toward(a, b)?,
    })
}

fn half() -> Result<Support, &'static str> {
    Ok(Support::Half {
        start: place(0, 1)?,
        along: toward(-1, -1)?,
    })
}

fn half_meets(y: i128, wanted: Meeting) -> Result<bool, &'static str> {
    Ok(meet(&half()?, &line(0, y, 1, 0)?) == wanted)
}

fn level_meets(y: i128, a: i32, b: i32, wanted: Meeting) -> Result<bool, &'static str> {
    Ok(meet(&line(0, y, 1, 0)?, &line(0, 0, a, b)?) == wanted)
}

#[test]
fn supports_meet(rt: HostRuntime) -> Result<(), Fail> {
    assert!(rt; half_meets(0, Meeting::At(place(-1, 0)?))?);
    assert!(rt; half_meets(2, Meeting::Outside)?);
    assert!(rt; level_meets(1, 1, 0, Meeting::Parallel)?);
    assert!(rt; level_meets(1 << 40, 2, 1, Meeting::TooFar)?);
    Ok(())
}

fn reduced() -> Result<bool, &'static str> {
    let third = Point::new(2, 4, 6).ok_or("far")?;
    Ok((third.x, third.y, third.w) == (1, 2, 3))
}

fn far() -> bool {
    Point::new(1, 0, (1 << 40) + 1).is_none()
}

fn ordered() -> Result<bool, &'static str> {
    let third = Point::new(1, 2, 3).ok_or("far")?;
    Ok(third.compare(&place(0, 1)?) == Ordering::Greater)
}

// The side of (1, 2) from the line through the origin along (a, b).
fn left_of(a: i32, b: i32, wanted: i32) -> Result<bool, &'static str> {
    Ok(side(&place(0, 0)?, &toward(a, b)?, &place(1, 2)?) == wanted)
}

fn lies_on(y: i128) -> Result<bool, &'static str> {
    Ok(on(&line(0, 1, 1, -1)?, &place(3, y)?))
}

fn lies_on_half(x: i128, y: i128) -> Result<bool, &'static str> {
    Ok(on(&half()?, &place(x, y)?))
}

#[test]
fn points(rt: HostRuntime) -> Result<(), Fail> {
    assert!(rt; far());
    assert!(rt; reduced()?);
    assert!(rt; ordered()?);
    Ok(())
}

#[test]
fn sides(rt: HostRuntime) -> Result<(), Fail> {
    for (a, b, wanted) in [(1, 0, 1), (1, 2, 0), (0, 1, -1)] {
        assert!(rt; left_of(a, b, wanted)?);
    }
    Ok(())
}

#[test]
fn points_on_supports(rt: HostRuntime) -> Result<(), Fail> {
    assert!(rt; lies_on(-2)?);
    assert!(rt; !lies_on(2)?);
    assert!(rt; lies_on_half(-5, -4)?);
    assert!(rt; lies_on_half(0, 1)?);
    assert!(rt; !lies_on_half(5, 6)?);
    Ok(())
}

fn angles() -> Result<bool, &'static str> {
    Ok(angle_cmp(&toward(1, 0)?, &toward(-1, 0)?) == Ordering::Less)
}

#[test]
fn directions(rt: HostRuntime) -> Result<(), Fail> {
    assert!(rt; Direction::new(2, 4).is_none() && Direction::new(0, 0).is_none());
    assert!(rt; Direction::new(4096, 1).is_some() && Direction::new(4097, 1).is_none());
    assert!(rt; angles()?);
    assert_eq!(rt; minor(1, 2, 3, 4), -10);
    Ok(())
}
