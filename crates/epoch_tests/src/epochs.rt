// A store of the first orders of two lines.

ghost use Rattle.std.specs.Prelude.{◌≡◌, ◌<◌, IfOk};
ghost use Rattle.limits.specs.Limits.{highest_order};
ghost use Rattle.order_epochs.specs.Seen.{epoch_of, next_epoch};

use order_epochs::{EpochReader, Epochs, Told};
use sample_walls::plain_axes;
use scatter_diagram::Initial;
use scatter_step::Completed;
use std::alloc::{AllocError, Global};
use std::sync::Wait;
use std::test::Fail;

pub(crate) fn start(alloc: Global) -> Result<Completed, Fail>
    ensures { IfOk result (λ c. c.order ≡ 0) }
{
    let lines = Initial::new(2, plain_axes(alloc)?);
    Ok(Completed::start(alloc, &lines)?)
}

pub(crate) fn next(last: &Completed) -> Result<Completed, Fail>
    requires { last.now.order < highest_order }
    ensures { IfOk result (λ c. epoch_of c ≡ next_epoch (epoch_of last.now)) }
{
    match last.next_order() {
        Ok(next) => Ok(next),
        Err(_) => Err(Fail::from("stopped")),
    }
}

// The order that the reader pins, and the reader once it gave it back.
fn pinned(reader: EpochReader) -> Result<(u32, EpochReader), Fail>
    ensures { IfOk result (λ r. r.1.lines ≡ reader.lines) }
{
    match reader.pin() {
        Ok(pinned) => {
            let order = pinned.completed().order();
            Ok((order, pinned.back()))
        }
        Err(_) => Err(Fail::from("refused")),
    }
}

// ---- nothing is published

fn pins_zero_twice(reader: EpochReader) -> Result<bool, Fail> {
    let (first, reader) = pinned(reader)?;
    let (again, reader) = pinned(reader)?;
    Ok(first == 0 && again == 0 && reader.seen() == 0)
}

fn the_first_order_is_pinned_again<R: Wait>(rt: &R, alloc: Global) -> Result<bool, Fail> {
    let (epochs, mut readers) = Epochs::begin(rt, alloc, start(alloc)?, 1)?;
    let passed = pins_zero_twice(readers.remove(0));
    epochs.end(rt);
    passed
}

// ---- order 1 is published

fn pins_one(reader: EpochReader, told: Result<Told, AllocError>) -> Result<bool, Fail>
    requires { IfOk told (λ t. t.lines ≡ reader.lines) }
{
    let reader = reader.learn(told?);
    let seen = reader.seen();
    let (order, reader) = pinned(reader)?;
    Ok(seen == 1 && order == 1 && reader.seen() == 1)
}

fn the_next_order_is_pinned<R: Wait>(rt: &R, alloc: Global) -> Result<bool, Fail> {
    let first = start(alloc)?;
    let second = next(&first)?;
    let (epochs, mut readers) = Epochs::begin(rt, alloc, first, 1)?;
    let (epochs, told) = epochs.publish(rt, second);
    let newest = epochs.newest() == 1 && epochs.told().order() == 1;
    let passed = pins_one(readers.remove(0), told);
    epochs.end(rt);
    let passed = passed?;
    Ok(newest && passed)
}

// The reader holds order 0 while order 1 is published, and pins that afterwards.
fn a_pin_blocks_no_publish<R: Wait>(rt: &R, alloc: Global) -> Result<bool, Fail> {
    let first = start(alloc)?;
    let second = next(&first)?;
    let (epochs, mut readers) = Epochs::begin(rt, alloc, first, 1)?;
    let held = readers.remove(0).pin();
    let (epochs, told) = epochs.publish(rt, second);
    let passed = match held {
        Ok(held) => {
            let zero = held.completed().order() == 0;
            pins_one(held.back(), told).map(|one| zero && one)
        }
        Err(_) => Err(Fail::from("refused")),
    };
    epochs.end(rt);
    passed
}

// The store is ended before the reader pins the order that it learned of.
fn an_order_learned_of_is_pinned<R: Wait>(rt: &R, alloc: Global) -> Result<bool, Fail> {
    let first = start(alloc)?;
    let second = next(&first)?;
    let (epochs, mut readers) = Epochs::begin(rt, alloc, first, 1)?;
    let (epochs, told) = epochs.publish(rt, second);
    epochs.end(rt);
    pins_one(readers.remove(0), told)
}

#[test]
fn orders_are_pinned(rt: HostRuntime) -> Result<(), Fail> {
    let alloc = rt.alloc();
    assert!(rt; the_first_order_is_pinned_again(&rt, alloc)?);
    assert!(rt; the_next_order_is_pinned(&rt, alloc)?);
    assert!(rt; a_pin_blocks_no_publish(&rt, alloc)?);
    assert!(rt; an_order_learned_of_is_pinned(&rt, alloc)?);
    Ok(())
}
