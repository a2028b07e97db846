// Asks at the first orders of the lines through the origin along (1, 0) and (0, 1), with 1 + t1·x and
// 1 + t2·y. In order 0 these functions are cut to 1, so no line bends. In order 1 they are what they
// are, and no ray is there: the first one, of 1 + t1·t2·x·y, has degree 2.

ghost use Rattle.std.specs.Prelude.{◌≡◌, IfOk};
ghost use Rattle.theta_algebra.specs.Answering.{IsQuery};
ghost use Rattle.theta_algebra.specs.Families.{IsFactorExp};

use crate::epochs::{next, start};
use broken_lines::AskFault;
use diagram_reader::DiagramReader;
use order_epochs::{Epochs, Told};
use plane_geom::Point;
use sample_walls::place;
use std::alloc::{AllocError, Global};
use std::sync::Wait;
use std::test::Fail;
use theta_algebra::{Answer, Query, QueryKind, Reply};
use trunc_series::{Exp, Key};

// t1^i·t2^j·z^(a, b)
pub(crate) const fn monomial(i: u8, j: u8, a: i32, b: i32) -> Key {
    Key {
        exp: Exp { a, b },
        powers: [i, j, 0, 0, 0, 0, 0, 0],
    }
}

// The theta of m at a point, in the order `least` or a later one.
pub(crate) fn theta_of(m: Exp, at: Point, least: Option<u32>) -> Query
    requires { IsFactorExp m }
    ensures { IsQuery result }
{
    Query {
        kind: QueryKind::Theta(m),
        at,
        least,
    }
}

// Whether an answer's reply is the series of the answer's order with these terms.
pub(crate) fn is_theta(answer: &Answer, terms: &[(Key, i128)]) -> bool {
    match &answer.result {
        Ok(Reply::Series(s)) => s.order() == answer.order && s.terms() == terms,
        _ => false,
    }
}

// Whether it is the theta of m alone.
fn is_theta_alone(answer: &Answer, m: Exp) -> bool {
    let Ok(Reply::Family(family)) = &answer.result else {
        return false;
    };
    let [(r, s)] = family.as_slice() else {
        return false;
    };
    *r == m && s.order() == answer.order && s.terms() == [(Key::ONE, 1)].as_slice()
}

// Whether it is this fault.
pub(crate) fn is_fault(answer: &Answer, fault: AskFault) -> bool {
    match answer.result {
        Ok(_) => false,
        Err(found) => found == fault,
    }
}

// ---- in order 0

// The theta of (1, 0) is its straight line.
fn goes_straight(alloc: Global, reader: DiagramReader) -> Result<bool, Fail> {
    let query = theta_of(Exp { a: 1, b: 0 }, place(2, 1)?, None);
    let (reader, answer) = reader.ask(alloc, &query);
    let straight = is_theta(&answer, [(monomial(0, 0, 1, 0), 1)].as_slice());
    Ok(straight && answer.order == 0 && reader.seen() == 0)
}

fn order_zero_is_asked<R: Wait>(rt: &R, alloc: Global) -> Result<bool, Fail> {
    let (epochs, mut readers) = Epochs::begin(rt, alloc, start(alloc)?, 1)?;
    let passed = goes_straight(alloc, DiagramReader::new(readers.remove(0)));
    epochs.end(rt);
    passed
}

// ---- in order 1, of which the reader has learned

fn ask_of_told(
    alloc: Global,
    reader: DiagramReader,
    told: Result<Told, AllocError>,
    query: &Query,
) -> Result<(u32, Answer), Fail>
    requires lines { IfOk told (λ t. t.lines ≡ reader.lines) }
    requires query { IsQuery query.now }
{
    let reader = reader.learn(told?);
    let (reader, answer) = reader.ask(alloc, query);
    Ok((reader.seen(), answer))
}

// What the reader has seen after its ask, and the answer.
fn ask_in_order_one<R: Wait>(rt: &R, alloc: Global, query: &Query) -> Result<(u32, Answer), Fail>
    requires { IsQuery query.now }
{
    let first = start(alloc)?;
    let second = next(&first)?;
    let (epochs, mut readers) = Epochs::begin(rt, alloc, first, 1)?;
    let (epochs, told) = epochs.publish(rt, second);
    let asked = ask_of_told(alloc, DiagramReader::new(readers.remove(0)), told, query);
    epochs.end(rt);
    asked
}

// A line for (-1, 0) comes from the left. One goes straight to (2, 1); another bends on x = 0 at (0, 3),
// by t2·y, and goes on along (1, -1).
fn bends_at_a_line<R: Wait>(rt: &R, alloc: Global, least: Option<u32>) -> Result<bool, Fail> {
    let query = theta_of(Exp { a: -1, b: 0 }, place(2, 1)?, least);
    let (seen, answer) = ask_in_order_one(rt, alloc, &query)?;
    let wanted = [(monomial(0, 0, -1, 0), 1), (monomial(0, 1, -1, 1), 1)];
    Ok(is_theta(&answer, wanted.as_slice()) && answer.order == 1 && seen == 1)
}

// Order 2 isn't there yet.
fn waits_for_order_two<R: Wait>(rt: &R, alloc: Global) -> Result<bool, Fail> {
    let query = theta_of(Exp { a: 1, b: 0 }, place(2, 1)?, Some(2));
    let (seen, answer) = ask_in_order_one(rt, alloc, &query)?;
    let early = is_fault(&answer, AskFault::NotYet { newest: 1 });
    Ok(early && answer.order == 1 && seen == 1)
}

// (0, 5) is on the line along (0, 1).
fn is_on_a_line<R: Wait>(rt: &R, alloc: Global) -> Result<bool, Fail> {
    let at = place(0, 5)?;
    let query = theta_of(Exp { a: 1, b: 0 }, at, None);
    let (seen, answer) = ask_in_order_one(rt, alloc, &query)?;
    let fails = is_fault(&answer, AskFault::NotGeneric { at });
    Ok(fails && answer.order == 1 && seen == 1)
}

// At (2, 1) the thetas of (-1, 0) and (0, -1) are x^-1 + t2·x^-1·y and y^-1 + t1·x·y^-1, and that of
// (-1, -1) is x^-1·y^-1 + t2·x^-1 + t1·y^-1, which is their product up to degree 1.
fn multiplies<R: Wait>(rt: &R, alloc: Global) -> Result<bool, Fail> {
    let query = Query {
        kind: QueryKind::Product(Exp { a: -1, b: 0 }, Exp { a: 0, b: -1 }),
        at: place(2, 1)?,
        least: None,
    };
    let (seen, answer) = ask_in_order_one(rt, alloc, &query)?;
    Ok(is_theta_alone(&answer, Exp { a: -1, b: -1 }) && answer.order == 1 && seen == 1)
}

#[test]
fn asks_are_answered(rt: HostRuntime) -> Result<(), Fail> {
    let alloc = rt.alloc();
    assert!(rt; order_zero_is_asked(&rt, alloc)?);
    assert!(rt; bends_at_a_line(&rt, alloc, None)?);
    assert!(rt; bends_at_a_line(&rt, alloc, Some(1))?);
    assert!(rt; multiplies(&rt, alloc)?);
    Ok(())
}

#[test]
fn asks_have_faults(rt: HostRuntime) -> Result<(), Fail> {
    let alloc = rt.alloc();
    assert!(rt; waits_for_order_two(&rt, alloc)?);
    assert!(rt; is_on_a_line(&rt, alloc)?);
    Ok(())
}

// ---- what a reader keeps

// The order of the answer to an ask that has no fault in order 0 or 1, and the reader.
fn ask_far_off(alloc: Global, reader: DiagramReader) -> Result<(DiagramReader, u32), Fail>
    ensures { IfOk result (λ r. r.0.lines ≡ reader.lines) }
{
    let query = theta_of(Exp { a: 1, b: 0 }, place(2, 1)?, None);
    let (reader, answer) = reader.ask(alloc, &query);
    match answer.result {
        Ok(_) => Ok((reader, answer.order)),
        Err(_) => Err(Fail::from("no answer")),
    }
}

// Whether a reader of an ended store, which has seen order 1, is refused and keeps it.
fn is_refused(alloc: Global, reader: DiagramReader) -> Result<bool, Fail> {
    let query = theta_of(Exp { a: 1, b: 0 }, place(2, 1)?, None);
    let (reader, answer) = reader.ask(alloc, &query);
    Ok(is_fault(&answer, AskFault::Memory) && answer.order == 1 && reader.seen() == 1)
}

// Whether it asked in order 1, of which it didn't learn, has seen it, and keeps it once the store is ended.
fn keeps_one(alloc: Global, asked: Result<(DiagramReader, u32), Fail>) -> Result<bool, Fail> {
    let (reader, order) = asked?;
    let seen = reader.seen() == 1 && order == 1;
    let refused = is_refused(alloc, reader)?;
    Ok(seen && refused)
}

fn an_order_asked_is_seen<R: Wait>(rt: &R, alloc: Global) -> Result<bool, Fail> {
    let first = start(alloc)?;
    let second = next(&first)?;
    let (epochs, mut readers) = Epochs::begin(rt, alloc, first, 1)?;
    let (epochs, told) = epochs.publish(rt, second);
    let asked = ask_far_off(alloc, DiagramReader::new(readers.remove(0)));
    epochs.end(rt);
    let passed = keeps_one(alloc, asked)?;
    Ok(told.is_ok() && passed)
}

#[test]
fn readers_keep_what_they_saw(rt: HostRuntime) -> Result<(), Fail> {
    let alloc = rt.alloc();
    assert!(rt; an_order_asked_is_seen(&rt, alloc)?);
    Ok(())
}
