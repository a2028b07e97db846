// A reader of the store.

ghost use Rattle.std.specs.Prelude.{◌≡◌, ◌≤◌, MatchResult};
ghost use Rattle.left_right.specs.Sides.{view};
ghost use Rattle.order_epochs.specs.Seen.{epoch, learned};
ghost use Rattle.order_epochs.specs.Rule.{IsBacked};
ghost use Rattle.order_epochs.specs.Machine.{IsLearn};

use crate::steps::{StoreReader, look};
use crate::{Pinned, Told};
use std::marker::Model;

/// A reader of a store. It may be sent to another thread. Contracts see the lines of its store, and the
/// greatest order that it pinned or learned of.
#[derive(Drop)]
pub struct EpochReader {
    reader: StoreReader,
    seen: u32,
    /// What it learned of since its last pin.
    told: Option<Told>,
}

impl Model for EpochReader {
    ghost use Rattle.left_right.specs.Sides.{view as known};
    ghost use Rattle.order_epochs.specs.Seen.{SeenEpoch, epoch};
    ghost use Rattle.order_epochs.specs.Rule.{IsBacked};

    ghost Value = { SeenEpoch };

    ghost view = { λ r. epoch (known r.reader.place).lines r.seen };

    ghost invariant = { λ r. IsBacked (known r.reader.place) r.told r.seen };
}

impl EpochReader {
    pub(crate) fn new(reader: StoreReader, seen: u32, told: Option<Told>) -> EpochReader
        requires { IsBacked (view reader.place) told seen }
        ensures { result ≡ epoch (view reader.place).lines seen }
    {
        EpochReader { reader, seen, told }
    }

    /// The greatest order that it pinned or learned of. It takes no memory.
    pub fn seen(&self) -> u32
        ensures { result ≡ self.now.order }
    {
        self.seen
    }

    /// Learns of an order of its store. It takes no memory.
    pub fn learn(self, told: Told) -> EpochReader
        requires store { told.lines ≡ self.lines }
        ensures seen { result ≡ learned self told.order }
        ensures machine { IsLearn self.order told.order result.order }
    {
        let seen = told.order();
        if seen <= self.seen {
            return self;
        }
        EpochReader {
            reader: self.reader,
            seen,
            told: Some(told),
        }
    }

    /// Pins the order that was published last, in one step, and waits for nobody. Where the store is
    /// ended or one owner more is refused, it pins the order that it learned of since its last pin, if
    /// there is one; else it comes back as it was.
    pub fn pin(self) -> Result<Pinned, EpochReader>
        ensures { MatchResult result
            (λ p. (p.lines ≡ self.lines) × (self.order ≤ p.order))
            (λ r. r ≡ self) }
    {
        let EpochReader { reader, seen, told } = self;
        let (reader, found) = look(reader);
        if let Some(order) = found {
            let newest = order.order();
            // What it learned of is published by now, but no clause of a step names the table of its
            // reader or writer, so nothing ties what was told to what is found here.
            if newest >= seen {
                let reader = EpochReader::new(reader, newest, None);
                return Ok(Pinned::new(reader, order));
            }
        }
        EpochReader::new(reader, seen, told).pin_told()
    }

    /// Pins the order that it learned of since its last pin, if there is one.
    fn pin_told(self) -> Result<Pinned, EpochReader>
        ensures { MatchResult result (λ p. p ≡ self) (λ r. r ≡ self) }
    {
        let found = match &self.told {
            Some(told) => told.share(),
            None => None,
        };
        match found {
            Some(order) => Ok(Pinned::new(self, order)),
            None => Err(self),
        }
    }
}
