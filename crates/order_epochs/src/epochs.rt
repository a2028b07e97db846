// The writer of the store.

ghost use Rattle.std.specs.Prelude.{◌≡◌, ◌+◌, ◌≤◌, replicate, IfOk, MatchResult};
ghost use Rattle.left_right.specs.Sides.{view};
ghost use Rattle.limits.specs.Limits.{most_readers};
ghost use Rattle.order_epochs.specs.Seen.{epoch_of, next_epoch};
ghost use Rattle.order_epochs.specs.Rule.{epoch_on, knows};
ghost use Rattle.order_epochs.specs.Machine.{IsPublish, IsTell};

use crate::rule::Shows;
use crate::shelf::Shelf;
use crate::steps::{StoreWriter, seat, show};
use crate::{EpochReader, Told};
use scatter_step::Completed;
use std::alloc::{AllocError, Global};
use std::marker::Model;
use std::sync::{Arc, Wait};

/// The writer of a store. It isn't `Drop`: end it by `end`. Contracts see the lines of the store, which
/// are those of its first order, and its newest order.
pub struct Epochs {
    alloc: Global,
    writer: StoreWriter,
}

impl Model for Epochs {
    ghost use Rattle.std.specs.Prelude.{◌≡◌};
    ghost use Rattle.left_right.specs.Sides.{view as known};
    ghost use Rattle.order_epochs.specs.Seen.{SeenEpoch};
    ghost use Rattle.order_epochs.specs.Rule.{epoch_on, knows};

    ghost Value = { SeenEpoch };

    ghost view = { λ e. epoch_on e.writer.desk.shown.value };

    ghost invariant = { λ e. known e.writer.desk.place
        ≡ knows (epoch_on e.writer.desk.shown.value) };
}

/// So many readers, which have seen the newest order.
fn seat_readers(epochs: &mut Epochs, readers: u32) -> Result<Vec<EpochReader>, AllocError>
    ensures readers { IfOk result (λ v. v.items ≡ replicate readers epochs.old) }
    ensures same { epochs.new ≡ epochs.old }
{
    let mut seated = Vec::new(epochs.alloc);
    for _ in 0..readers {
        let reader = epochs.seat_reader()?;
        seated.push(reader)?;
    }
    Ok(seated)
}

/// The writer of a store that has its first order twice, with places for so many readers.
fn open<R: Wait>(
    rt: &R,
    alloc: Global,
    first: Completed,
    places: usize,
) -> Result<StoreWriter, AllocError>
    requires some { 1 ≤ places }
    requires few { places ≤ most_readers }
    ensures shown { IfOk result (λ w. epoch_on w.desk.shown.value ≡ epoch_of first) }
    ensures known { IfOk result (λ w. view w.desk.place ≡ knows (epoch_of first)) }
{
    let one = Arc::new(alloc, first)?;
    let other = Arc::try_clone(&one)?;
    let writer = StoreWriter::new(alloc, Shelf(one), Shelf(other), places)?;
    let (writer, shown) = writer.publish_as::<Shows, R>(rt);
    match shown {
        Ok(()) => Ok(writer),
        Err(error) => {
            writer.take(rt);
            Err(error)
        }
    }
}

impl Epochs {
    /// A store with its first order, and so many readers, from 0 to 8, which have seen it. All places of
    /// readers are taken here. Where one is refused, the store is ended again.
    pub fn begin<R: Wait>(
        rt: &R,
        alloc: Global,
        first: Completed,
        readers: u32,
    ) -> Result<(Epochs, Vec<EpochReader>), AllocError>
        requires few { readers ≤ most_readers }
        ensures store { IfOk result (λ r. r.0 ≡ epoch_of first) }
        ensures readers { IfOk result (λ r. r.1.items ≡ replicate readers (epoch_of first)) }
    {
        let places = if readers == 0 { 1 } else { readers as usize };
        let writer = open(rt, alloc, first, places)?;
        let mut epochs = Epochs { alloc, writer };
        match seat_readers(&mut epochs, readers) {
            Ok(seated) => Ok((epochs, seated)),
            Err(error) => {
                epochs.end(rt);
                Err(error)
            }
        }
    }

    fn seat_reader(&mut self) -> Result<EpochReader, AllocError>
        ensures reader { IfOk result (λ r. r ≡ self.old) }
        ensures same { self.new ≡ self.old }
    {
        let seen = self.newest();
        let reader = seat(&mut self.writer)?;
        Ok(EpochReader::new(reader, seen, None))
    }

    /// The newest order. It takes no memory.
    pub fn newest(&self) -> u32
        ensures { result ≡ self.now.order }
    {
        self.writer.published().0.order()
    }

    /// Publishes the next order of the same lines, in one step, and tells of it. It waits for readers
    /// that are just taking an order, and for no pin. Where memory or an owner more is refused, no
    /// reader ever gets `next`, the newest order and every reader stay, and the same order may be
    /// published again, from a copy.
    pub fn publish<R: Wait>(self, rt: &R, next: Completed) -> (Epochs, Result<Told, AllocError>)
        requires lines { next.initial ≡ self.lines }
        requires order { next.order ≡ self.order + 1 }
        ensures published { MatchResult result.1
            (λ t. (result.0 ≡ next_epoch self) × (t ≡ next_epoch self))
            (λ _. result.0 ≡ self) }
        ensures machine { IfOk result.1 (λ t. IsPublish self.order t.order) }
    {
        let Epochs { alloc, writer } = self;
        let Ok(next) = Arc::new(alloc, next) else {
            return (Epochs { alloc, writer }, Err(AllocError));
        };
        let (writer, shown) = show(rt, writer, Shelf(next));
        match shown {
            Ok(()) => {
                let told = Told::of(&writer.published().0);
                (Epochs { alloc, writer }, Ok(told))
            }
            Err(error) => (Epochs { alloc, writer }, Err(error)),
        }
    }

    /// Tells of the newest order. It takes no memory.
    pub fn told(&self) -> Told
        ensures told { result ≡ self.now }
        ensures machine { IsTell self.now.order result.order }
    {
        Told::of(&self.writer.published().0)
    }

    /// Ends the store. It waits for readers that are just taking an order. A reader may be refused a pin
    /// afterwards. It takes no memory.
    pub fn end<R: Wait>(self, rt: &R) {
        let Epochs { alloc: _, writer } = self;
        writer.take(rt);
    }
}
