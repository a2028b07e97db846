// Single steps at the table.

ghost use Rattle.std.specs.Prelude.{◌≡◌, ◌<◌, ℕ, [], true, false, IfOk};
ghost use Rattle.limits.specs.Limits.{most_workers};
ghost use Rattle.order_machine.specs.History.{tasks_end};
ghost use Rattle.joint_board.specs.Rule.{first_view, after_claim, after_split, both_views, fresh_view, times_in, IsAbove, IsViewAt, IsFull, IsFirstView};

use crate::rule::{Another, Back, Claim, Law, Settle};
use crate::view::{Size, View};
use atomic_table::{Seat, Table};
use std::alloc::{AllocError, Global};

pub(crate) type Tally = Table<(), View, Size, Law, Global>;

/// The table with its first seat.
pub(crate) fn new_table(alloc: Global, size: Size) -> Result<(Tally, Seat<(), View>), AllocError>
    requires { size.tasks < tasks_end }
    ensures table { IfOk result
        (λ r. (r.0.shared.table_id.words ≡ 1) × (r.0.shared.key ≡ size)) }
    ensures seat { IfOk result
        (λ r. (r.1.table_id ≡ r.0.shared.table_id) × (r.1.id ≡ 0)
        × (r.1.me ≡ (first_view size, []))) }
{
    Table::of_words(alloc, &[0], &size)
}

/// The next number.
pub(crate) fn draw(table: &Tally, seat: &mut Seat<(), View>) -> u64
    requires table { IsViewAt table.now.shared.table_id seat.old.table_id seat.old.me }
    requires idle { seat.old.me.0.done ≡ false }
    ensures table { seat.new.table_id ≡ seat.old.table_id }
    ensures seat { seat.new.me ≡ (after_claim seat.old.me.0 result, []) }
    ensures above { IsAbove seat.old.me.0.drawn result }
{
    table.shared.fetch_add::<Claim>(seat, 0, 1)
}

/// A seat with the next number, from the first one.
pub(crate) fn split(table: &Tally, first: &mut Seat<(), View>) -> Seat<(), View>
    requires table { IsViewAt table.now.shared.table_id first.old.table_id first.old.me }
    requires first { (first.old.id ≡ 0) × (first.old.me.0.done ≡ false) }
    requires few { first.old.me.0.made < most_workers }
    ensures table { (first.new.table_id ≡ first.old.table_id) × (first.new.id ≡ first.old.id)
        × (result.table_id ≡ first.old.table_id) }
    ensures first { first.new.me ≡ (after_split first.old.me.0, []) }
    ensures seat { result.me ≡ (fresh_view first.old.me.0, []) }
{
    table.shared.split_seat::<Another>(first)
}

/// The first seat, which is done, takes in another one that is done.
pub(crate) fn join(table: &Tally, first: &mut Seat<(), View>, other: Seat<(), View>)
    requires table { IsViewAt table.now.shared.table_id first.old.table_id first.old.me }
    requires first { IsFirstView first.old.me.0 }
    requires other { IsViewAt table.now.shared.table_id other.table_id other.me }
    requires done { other.me.0.done ≡ true }
    ensures table { first.new.table_id ≡ first.old.table_id }
    ensures first { first.new.me ≡ (both_views first.old.me.0 other.me.0, []) }
{
    table.shared.join_seat::<Back>(first, other);
}

/// Once all seats were joined into the first one, it drew each task once.
pub(crate) fn settle(table: &Tally, first: &mut Seat<(), View>)
    requires table { IsViewAt table.now.shared.table_id first.old.table_id first.old.me }
    requires first { IsFirstView first.old.me.0 }
    requires full { IsFull first.old.me.0 }
    ensures { (x : ℕ) → x < first.old.me.0.tasks → times_in x first.old.me.0.drawn ≡ 1 }
{
    table.shared.load::<Settle>(first, 0);
}
