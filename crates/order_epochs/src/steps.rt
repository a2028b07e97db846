// The steps at the two copies, each as far as the store's rule tells of it.

ghost use Rattle.std.specs.Prelude.{◌≡◌, ◌≤◌, true, IfOk, IfSome, MatchResult};
ghost use Rattle.std.specs.Arc.{arc_value};
ghost use Rattle.left_right.specs.Sides.{view};
ghost use Rattle.order_epochs.specs.Seen.{epoch_of};
ghost use Rattle.order_epochs.specs.Rule.{epoch_on, knows, IsLater};

use crate::rule::{Later, Law, Shows, Twice};
use crate::shelf::Shelf;
use crate::view::View;
use left_right::reader::Reader;
use left_right::writer::Writer;
use scatter_step::Completed;
use std::alloc::{AllocError, Global};
use std::sync::{Arc, Wait};

pub(crate) type StoreReader = Reader<Shelf, View, Law>;

pub(crate) type StoreWriter = Writer<Shelf, Shelf, View, Law>;

/// The writer publishes `next`. Where it is refused, what is published stays.
pub(crate) fn show<R: Wait>(
    rt: &R,
    mut writer: StoreWriter,
    next: Shelf,
) -> (StoreWriter, Result<(), AllocError>)
    requires lines { (epoch_on next).lines ≡ (epoch_on writer.desk.shown.value).lines }
    requires order { (epoch_on writer.desk.shown.value).order ≤ (epoch_on next).order }
    ensures { MatchResult result.1
        (λ _. (epoch_on result.0.desk.shown.value ≡ epoch_on next)
        × (view result.0.desk.place ≡ knows (epoch_on next)))
        (λ _. (result.0.desk.shown.value ≡ writer.desk.shown.value)
        × (view result.0.desk.place ≡ view writer.desk.place)) }
{
    let Ok(()) = writer.append(next) else {
        return (writer, Err(AllocError));
    };
    writer.publish_as::<Shows, R>(rt)
}

/// A reader that knows what the writer knows.
pub(crate) fn seat(writer: &mut StoreWriter) -> Result<StoreReader, AllocError>
    requires { view writer.old.desk.place ≡ knows (epoch_on writer.old.desk.shown.value) }
    ensures reader { IfOk result (λ r. view r.place ≡ view writer.old.desk.place) }
    ensures shown { writer.new.desk.shown ≡ writer.old.desk.shown }
    ensures known { view writer.new.desk.place ≡ view writer.old.desk.place }
{
    let mut reader = writer.factory().reader()?;
    reader.learn::<Later>(writer.tell::<Twice>());
    Ok(reader)
}

/// A reader takes the order that is published, where the store isn't ended and the order can have one
/// owner more.
pub(crate) fn look(reader: StoreReader) -> (StoreReader, Option<Arc<Completed, Global>>)
    requires { (view reader.place).named ≡ true }
    ensures later { IsLater (view reader.place) (view result.0.place) }
    ensures found { IfSome result.1 (λ a. view result.0.place ≡ knows (epoch_of (arc_value a))) }
{
    let reading = match reader.enter_as::<Shows>() {
        Ok(reading) => reading,
        Err(reader) => return (reader, None),
    };
    let found = Arc::try_clone(&reading.get().0).ok();
    (reading.leave(), found)
}
