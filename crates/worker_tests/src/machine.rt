// One worker and one reader, up to order 1.

use order_machine::{Event, MachineFault, Reply, State, run};
use std::alloc::Global;
use std::test::Fail;

const BEGIN: Event = Event::Begin { tasks: 1 };

const CLAIM: Event = Event::Claim { worker: 0 };

const FINISH: Event = Event::Finish { worker: 0 };

const PIN: Event = Event::Pin { reader: 0 };

fn order_one_is_published(alloc: Global) -> Result<bool, Fail> {
    let mut state = State::new(alloc, 1, 1, 1)?;
    let events = [BEGIN, CLAIM, FINISH, CLAIM, Event::Publish, PIN];
    let replies = run(&mut state, &events)?;
    let due = [
        Reply::Done,
        Reply::Drawn(0),
        Reply::Done,
        Reply::NoTask,
        Reply::Published(1),
        Reply::Pinned(1),
    ];
    Ok(replies.as_slice() == due.as_slice())
}

fn unfinished_board_stays(alloc: Global) -> Result<bool, Fail> {
    let mut state = State::new(alloc, 1, 1, 1)?;
    let halted = run(&mut state, &[BEGIN, Event::Publish]);
    Ok(matches!(halted, Err(MachineFault::NotEnabled { place: 1 })))
}

fn reader_learns_what_it_was_told(alloc: Global) -> Result<bool, Fail> {
    let mut state = State::new(alloc, 1, 1, 1)?;
    let unpinned = state.step(&Event::Ask {
        reader: 0,
        least: 0,
    });
    let pinned = state.step(&PIN);
    let early = state.step(&Event::Ask {
        reader: 0,
        least: 1,
    });
    Ok(
        matches!(unpinned, Err(MachineFault::NotEnabled { place: 0 }))
            && matches!(pinned, Ok(Reply::Pinned(0)))
            && matches!(early, Ok(Reply::NotYet(0))),
    )
}

fn copy_goes_its_own_way(alloc: Global) -> Result<bool, Fail> {
    let mut state = State::new(alloc, 1, 1, 1)?;
    let mut copy = state.copy()?;
    let begun = copy.step(&BEGIN);
    let idle = state.step(&CLAIM);
    Ok(matches!(begun, Ok(Reply::Done)) && matches!(idle, Err(MachineFault::NotEnabled { .. })))
}

#[test]
fn events_have_their_replies(rt: HostRuntime) -> Result<(), Fail> {
    let alloc = rt.alloc();
    assert!(rt; order_one_is_published(alloc)?);
    assert!(rt; unfinished_board_stays(alloc)?);
    assert!(rt; reader_learns_what_it_was_told(alloc)?);
    assert!(rt; copy_goes_its_own_way(alloc)?);
    Ok(())
}
