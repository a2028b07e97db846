// Exponents within reach.

ghost use Rattle.std.specs.Prelude.{◌≡◌, ◌≤◌, IfOk};
ghost use Rattle.limits.specs.Limits.{highest_order};
ghost use Rattle.scatter_diagram.specs.Listed.{AreLines};

use broken_lines::{AskFault, reach};
use limits::HIGHEST_ORDER;
use sample_walls::monomials::{ONE, T1_Y_TO_64, T1T1_X, X, XY, Y};
use sample_walls::{axes, origin, wall};
use scatter_diagram::{Diagram, Wall, WallKind};
use std::alloc::Global;
use std::test::Fail;
use trunc_series::{Exp, Key};

// The multiples of the axes, each with t1.

const T1_X_TO_4: Key = Key {
    exp: Exp { a: 4, b: 0 },
    powers: [1, 0, 0, 0, 0, 0, 0, 0],
};

const T1_X_TO_64: Key = Key {
    exp: Exp { a: 64, b: 0 },
    powers: [1, 0, 0, 0, 0, 0, 0, 0],
};

const T1_X_TO_MINUS_64: Key = Key {
    exp: Exp { a: -64, b: 0 },
    powers: [1, 0, 0, 0, 0, 0, 0, 0],
};

const T1_X_TO_MINUS_4: Key = Key {
    exp: Exp { a: -4, b: 0 },
    powers: [1, 0, 0, 0, 0, 0, 0, 0],
};

const T1_X_TO_MINUS_1: Key = Key {
    exp: Exp { a: -1, b: 0 },
    powers: [1, 0, 0, 0, 0, 0, 0, 0],
};

const T1_Y: Key = Key {
    exp: Exp { a: 0, b: 1 },
    powers: [1, 0, 0, 0, 0, 0, 0, 0],
};

const T1_Y_TO_4: Key = Key {
    exp: Exp { a: 0, b: 4 },
    powers: [1, 0, 0, 0, 0, 0, 0, 0],
};

const T1_Y_TO_MINUS_64: Key = Key {
    exp: Exp { a: 0, b: -64 },
    powers: [1, 0, 0, 0, 0, 0, 0, 0],
};

const T1_Y_TO_MINUS_4: Key = Key {
    exp: Exp { a: 0, b: -4 },
    powers: [1, 0, 0, 0, 0, 0, 0, 0],
};

const T1_Y_TO_MINUS_1: Key = Key {
    exp: Exp { a: 0, b: -1 },
    powers: [1, 0, 0, 0, 0, 0, 0, 0],
};

const fn exp(a: i32, b: i32) -> Exp {
    Exp { a, b }
}

// Lines with 1 + t1·x + t1^2·x and 1 + t2·y, and the ray with 1 + t1·t2·x·y.
fn two_lines(alloc: Global) -> Result<Diagram, Fail>
    ensures { IfOk result (λ e. e.order ≡ 2) }
{
    let x = [(ONE, 1), (X, 1), (T1T1_X, 1)];
    let y = [(ONE, 1), (Y, 1)];
    let lines = axes(alloc, 2, &x, &y)?;
    let mut rays = Vec::new(alloc);
    let diagonal = [(ONE, 1), (XY, 1)];
    rays.push(wall(alloc, WallKind::Outgoing, origin(), 1, 1, 2, &diagonal)?)?;
    Ok(Diagram::from_walls(alloc, 2, lines, rays)?)
}

// Whether exactly these are reached, with their degrees.
fn reaches(alloc: Global, limit: u32, wanted: &[(Exp, u32)]) -> Result<bool, Fail>
    requires { limit ≤ 2 }
{
    let e = two_lines(alloc)?;
    let found = reach(alloc, &e, limit)?;
    Ok(found.as_slice() == wanted)
}

#[test]
fn exponents_have_their_least_degree(rt: HostRuntime) -> Result<(), Fail> {
    let none = [(exp(0, 0), 0)];
    assert!(rt; reaches(rt.alloc(), 0, &none)?);
    let low = [(exp(0, 0), 0), (exp(0, 1), 1), (exp(1, 0), 1)];
    assert!(rt; reaches(rt.alloc(), 1, &low)?);
    let all = [
        (exp(0, 0), 0),
        (exp(0, 1), 1),
        (exp(0, 2), 2),
        (exp(1, 0), 1),
        (exp(1, 1), 2),
        (exp(2, 0), 2),
    ];
    assert!(rt; reaches(rt.alloc(), 2, &all)?);
    Ok(())
}

// The lines through the origin along the axes, one each way, with t1 at the multiples 1, 4 and 64.
pub(crate) fn four_lines(alloc: Global) -> Result<Vec<Wall>, Fail>
    ensures { IfOk result (λ ws. AreLines highest_order ws.items) }
{
    let order = HIGHEST_ORDER;
    let mut lines = Vec::new(alloc);
    let right = [(ONE, 1), (X, 1), (T1_X_TO_4, 1), (T1_X_TO_64, 1)];
    lines.push(wall(alloc, WallKind::Line, origin(), 1, 0, order, &right)?)?;
    let left = [
        (T1_X_TO_MINUS_64, 1),
        (T1_X_TO_MINUS_4, 1),
        (T1_X_TO_MINUS_1, 1),
        (ONE, 1),
    ];
    lines.push(wall(alloc, WallKind::Line, origin(), -1, 0, order, &left)?)?;
    let up = [(ONE, 1), (T1_Y, 1), (T1_Y_TO_4, 1), (T1_Y_TO_64, 1)];
    lines.push(wall(alloc, WallKind::Line, origin(), 0, 1, order, &up)?)?;
    let down = [
        (T1_Y_TO_MINUS_64, 1),
        (T1_Y_TO_MINUS_4, 1),
        (T1_Y_TO_MINUS_1, 1),
        (ONE, 1),
    ];
    lines.push(wall(alloc, WallKind::Line, origin(), 0, -1, order, &down)?)?;
    Ok(lines)
}

// Whether they reach more exponents than are allowed.
fn too_many(alloc: Global) -> Result<bool, Fail> {
    let e = Diagram::from_walls(alloc, HIGHEST_ORDER, four_lines(alloc)?, Vec::new(alloc))?;
    Ok(reach(alloc, &e, HIGHEST_ORDER).err() == Some(AskFault::TooManyReach))
}

#[test]
fn four_lines_reach_too_many(rt: HostRuntime) -> Result<(), Fail> {
    assert!(rt; too_many(rt.alloc())?);
    Ok(())
}
