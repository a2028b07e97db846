// Walls, worked by hand.

ghost use Rattle.std.specs.Prelude.{◌≡◌, IfOk};

use plane_geom::Support;
use sample_walls::monomials::{ONE, XXYY};
use sample_walls::{place, wall};
use scatter_diagram::{Stop, Wall, WallKind, opposite};
use std::alloc::{AllocError, Global};
use std::test::Fail;

// A ray or a line at (1, 1) along (1, 1).
fn slanted(alloc: Global, kind: WallKind) -> Result<Wall, Fail>
    ensures { IfOk result (λ w. w.function.order ≡ 4) }
{
    let start = place(1, 1)?;
    wall(alloc, kind, start, 1, 1, 4, &[(ONE, 1), (XXYY, 10)])
}

// Whether it holds (x, x).
fn holds(alloc: Global, kind: WallKind, x: i128) -> Result<bool, Fail> {
    let p = place(x, x)?;
    Ok(slanted(alloc, kind)?.holds(&p))
}

fn starts(alloc: Global, kind: WallKind, x: i128) -> Result<bool, Fail> {
    let p = place(x, x)?;
    Ok(slanted(alloc, kind)?.starts_at(&p))
}

#[test]
fn walls_hold_points(rt: HostRuntime) -> Result<(), Fail> {
    let alloc = rt.alloc();
    assert!(rt; holds(alloc, WallKind::Outgoing, 1)?);
    assert!(rt; holds(alloc, WallKind::Outgoing, 0)?);
    assert!(rt; !holds(alloc, WallKind::Outgoing, 2)?);
    assert!(rt; holds(alloc, WallKind::Line, 2)?);
    Ok(())
}

#[test]
fn rays_start(rt: HostRuntime) -> Result<(), Fail> {
    let alloc = rt.alloc();
    assert!(rt; starts(alloc, WallKind::Outgoing, 1)?);
    assert!(rt; !starts(alloc, WallKind::Outgoing, 0)?);
    assert!(rt; !starts(alloc, WallKind::Line, 1)?);
    Ok(())
}

fn ray_support(alloc: Global) -> Result<bool, Fail> {
    let ray = slanted(alloc, WallKind::Outgoing)?;
    let along = opposite(&ray.dir);
    Ok(
        (along.a, along.b) == (-1, -1)
            && ray.support()
                == Support::Half {
                    start: ray.at,
                    along,
                },
    )
}

fn line_support(alloc: Global) -> Result<bool, Fail> {
    let line = slanted(alloc, WallKind::Line)?;
    Ok(
        line.support()
            == Support::Line {
                at: line.at,
                dir: line.dir,
            },
    )
}

#[test]
fn supports(rt: HostRuntime) -> Result<(), Fail> {
    let alloc = rt.alloc();
    assert!(rt; ray_support(alloc)?);
    assert!(rt; line_support(alloc)?);
    Ok(())
}

fn live(alloc: Global) -> Result<bool, Fail> {
    let ray = slanted(alloc, WallKind::Outgoing)?;
    Ok(ray.is_live() && ray.least_degree() == Some(4))
}

fn cut(alloc: Global) -> Result<bool, Fail> {
    let low = slanted(alloc, WallKind::Outgoing)?.truncate(3)?;
    Ok(!low.is_live() && low.least_degree().is_none())
}

fn same_copy(alloc: Global) -> Result<bool, Fail> {
    let ray = slanted(alloc, WallKind::Outgoing)?;
    Ok(ray.same(&ray.copy()?))
}

fn same_cut(alloc: Global) -> Result<bool, Fail> {
    let ray = slanted(alloc, WallKind::Outgoing)?;
    Ok(ray.same(&ray.truncate(3)?))
}

fn same_kind(alloc: Global) -> Result<bool, Fail> {
    let line = slanted(alloc, WallKind::Line)?;
    Ok(line.same(&slanted(alloc, WallKind::Outgoing)?))
}

#[test]
fn functions_are_cut_and_compared(rt: HostRuntime) -> Result<(), Fail> {
    let alloc = rt.alloc();
    assert!(rt; live(alloc)?);
    assert!(rt; cut(alloc)?);
    assert!(rt; same_copy(alloc)?);
    assert!(rt; !same_cut(alloc)?);
    assert!(rt; !same_kind(alloc)?);
    Ok(())
}

#[test]
fn want_of_memory_stops(rt: HostRuntime) -> Result<(), Fail> {
    assert_eq!(rt; Stop::from(AllocError), Stop::Memory);
    Ok(())
}
