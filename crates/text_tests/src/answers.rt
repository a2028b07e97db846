//! Asks as queries, and the text of answers.

ghost use Rattle.std.specs.Prelude.{◌≢◌};
ghost use Rattle.broken_lines.specs.declared.fault.AskFault.TheVariants.{Memory};
ghost use Rattle.theta_algebra.specs.Answering.{IsToldResult};

use crate::files::file_in;
use crate::lines::initial;
use broken_lines::AskFault;
use plane_geom::Point;
use scatter_diagram::StopCause;
use scatter_text::{TextMode, check_limits, queries_of, write_answers};
use std::alloc::{AllocError, Global};
use std::test::Fail;
use theta_algebra::{Answer, Query, QueryKind, Reply};
use trunc_series::{Exp, Key, Series};

// Asks of both kinds by two readers, with and without a least order.
const THREE_ASKS: &[u8] =
    b"scatter 1\nvars 2\nline 1 0 at 0 0\nterm 1 1 1 0\nask 1 theta -1 0 at 2 1\nask 2 theta 3 -4 at -1/2 1/3 order 0\nask 1 product -1 0 64 -64 at 0 7/3 order 24\nend\n";

fn exp(a: i32, b: i32) -> Exp {
    Exp { a, b }
}

fn are_said(queries: &[(u32, Query)]) -> bool {
    let said = [
        (1, QueryKind::Theta(exp(-1, 0)), Point::new(2, 1, 1), None),
        (
            2,
            QueryKind::Theta(exp(3, -4)),
            Point::new(-3, 2, 6),
            Some(0),
        ),
        (
            1,
            QueryKind::Product(exp(-1, 0), exp(64, -64)),
            Point::new(0, 7, 3),
            Some(24),
        ),
    ];
    queries.len() == 3
        && queries.iter().zip(said.iter()).all(|(q, s)| {
            q.0 == s.0 && q.1.kind == s.1 && Some(q.1.at) == s.2 && q.1.least == s.3
        })
}

fn says_queries(alloc: Global, text: &[u8]) -> Result<bool, AllocError> {
    match file_in(alloc, text, TextMode::Asks) {
        Some(file) => match check_limits(&file, 24, 2) {
            None => Ok(are_said(queries_of(alloc, &file)?.as_slice())),
            Some(_) => Ok(false),
        },
        None => Ok(false),
    }
}

#[test]
fn asks_are_queries(rt: HostRuntime) -> Result<(), Fail> {
    assert!(rt; says_queries(rt.alloc(), THREE_ASKS)?);
    Ok(())
}

// What is printed of two answers, in order 3 and in order 2, of a run that was stopped at order 4.
fn prints(
    alloc: Global,
    first: Result<Reply, AskFault>,
    second: Result<Reply, AskFault>,
    text: &[u8],
) -> Result<bool, AllocError>
    requires first { IsToldResult first }
    requires second { IsToldResult second }
{
    let answers = [
        Answer {
            order: 3,
            result: first,
        },
        Answer {
            order: 2,
            result: second,
        },
    ];
    let stop = Some((4, StopCause::TooManyWalls));
    Ok(write_answers(alloc, 2, 3, stop, answers.as_slice())?.as_slice() == text)
}

// 1 - t2·z^(1, -2) + 3·t1·z^(2, -4)
fn series(alloc: Global) -> Result<Reply, AllocError> {
    let text = b"scatter 1\nvars 2\nline 1 -2 at 0 0\nterm 3 2 1 0\nterm -1 1 0 1\nend\n";
    match initial(alloc, text) {
        Some(lines) if lines.lines().len() == 1 => {
            Ok(Reply::Series(lines.lines()[0].function.copy()?))
        }
        _ => Err(AllocError),
    }
}

fn key(p1: u8, p2: u8) -> Key {
    Key {
        exp: exp(0, 0),
        powers: [p1, p2, 0, 0, 0, 0, 0, 0],
    }
}

// The theta of (-1, -1), and that of (0, 0) with -2·t1·t2.
fn family(alloc: Global) -> Result<Reply, AllocError> {
    let mut family = Vec::new(alloc);
    family.push((exp(-1, -1), Series::monomial(alloc, 3, key(0, 0), 1)?))?;
    family.push((exp(0, 0), Series::monomial(alloc, 3, key(1, 1), -2)?))?;
    Ok(Reply::Family(family))
}

const REPLIES: &[u8] =
    b"answers 1\npublished 3\nstopped 4 walls\nanswer 1 order 3 series\nterm 1 0 0 0 0\nterm -1 1 -2 0 1\nterm 3 2 -4 1 0\nanswer 2 order 2 product\ntheta -1 -1\nterm 1 0 0\ntheta 0 0\nterm -2 1 1\nend\n";

fn replies(alloc: Global) -> Result<bool, AllocError> {
    prints(alloc, Ok(series(alloc)?), Ok(family(alloc)?), REPLIES)
}

const NO_ANSWERS: &[u8] = b"answers 1\npublished 0\nend\n";

const ZERO: &[u8] = b"answers 1\npublished 0\nanswer 1 order 0 series\nend\n";

// Of a zero series, and of no answers.
fn empty(alloc: Global) -> Result<bool, AllocError> {
    let none = write_answers(alloc, 1, 0, None, &[])?;
    let zero = [Answer {
        order: 0,
        result: Ok(Reply::Series(Series::zero(alloc, 0)?)),
    }];
    let one = write_answers(alloc, 8, 0, None, zero.as_slice())?;
    Ok(none.as_slice() == NO_ANSWERS && one.as_slice() == ZERO)
}

#[test]
fn replies_in_order(rt: HostRuntime) -> Result<(), Fail> {
    assert!(rt; replies(rt.alloc())?);
    assert!(rt; empty(rt.alloc())?);
    Ok(())
}

const FAULTS: [&[u8]; 3] = [
    b"answers 1\npublished 3\nstopped 4 walls\nanswer 1 order 3 fault not-yet 3\nanswer 2 order 2 fault not-generic 1/2 -3\nend\n",
    b"answers 1\npublished 3\nstopped 4 walls\nanswer 1 order 3 fault too-many-reach\nanswer 2 order 2 fault too-many-tails\nend\n",
    b"answers 1\npublished 3\nstopped 4 walls\nanswer 1 order 3 fault point-too-large\nanswer 2 order 2 fault weight-too-large\nend\n",
];

fn faults(alloc: Global, at: Point) -> Result<bool, AllocError> {
    let early = AskFault::NotYet { newest: 3 };
    let special = AskFault::NotGeneric { at };
    Ok(
        prints(alloc, Err(early), Err(special), FAULTS[0])?
            && prints(
                alloc,
                Err(AskFault::TooManyReach),
                Err(AskFault::TooManyTails),
                FAULTS[1],
            )?
            && prints(
                alloc,
                Err(AskFault::PointTooLarge),
                Err(AskFault::WeightTooLarge),
                FAULTS[2],
            )?,
    )
}

fn all_faults(alloc: Global) -> Result<bool, AllocError> {
    match Point::new(1, -6, 2) {
        Some(at) => faults(alloc, at),
        None => Ok(false),
    }
}

#[test]
fn faults_by_their_names(rt: HostRuntime) -> Result<(), Fail> {
    assert!(rt; all_faults(rt.alloc())?);
    Ok(())
}
