//! Stops at each call of the disk: commits, an abandon, checkpoints, and commits again.

ghost use Rattle.std.specs.Prelude.{◌≡◌, ◌≤◌, false};

use gx_disk::{Image, MemoryHost, Pick};
use gx_pager::{Keeper, Pager, read_file};
use gx_pages::{Page, PageError, Pages, Store};
use std::alloc::Global;
use std::test::Fail;

/// The count, and of the pages 2 and 3 the first byte and the one that all others are; zeros where there is no such page.
type State = [u8; 5];

fn filled(byte: u8) -> Page {
    let mut page = Page::zero();
    let bytes = page.bytes_mut();
    bytes.fill(byte);
    page
}

// The first byte of a page, and the one that all others are, or 255 where they differ.
fn bytes_of<P: Pages>(store: &mut P, page: u64) -> Result<(u8, u8), Fail> {
    let mut into = Page::zero();
    store.fetch(page, &mut into)?;
    let bytes = into.bytes();
    let others = if bytes[1..8191] == bytes[2..8192] {
        bytes[1]
    } else {
        255
    };
    Ok((bytes[0], others))
}

fn host_of(alloc: Global, image: &Image, failing: &[u64]) -> Result<MemoryHost, Fail> {
    let (pages, log) = (image.pages.as_slice(), image.log.as_slice());
    Ok(MemoryHost::new(alloc, pages, log, failing, &[])?)
}

fn state_of(alloc: Global, image: &Image) -> Result<State, Fail> {
    let mut host = host_of(alloc, image, &[])?;
    let mut pager = Pager::open(alloc, &mut host)?;
    let count = pager.header().count;
    let mut state = [count.min(255) as u8, 0, 0, 0, 0];
    if count > 2 {
        (state[1], state[2]) = bytes_of(&mut pager, 2)?;
    }
    if count > 3 {
        (state[3], state[4]) = bytes_of(&mut pager, 3)?;
    }
    let _ = pager.close();
    Ok(state)
}

#[derive(Clone, Copy, Debug, Drop)]
enum Step {
    Put(u64, u8),
    TakeAndPut(u8),
    Give(u64),
    Abandoned(u64, u8),
    Checkpoint,
    Nothing,
}

// Commits the unit.
fn commit<S: Store>(store: &mut S) -> Result<(), PageError>
    requires { S.spoiled store.old ≡ false }
{
    match store.reserve() {
        Ok(()) => (),
        Err(error) => return Err(error),
    }
    store.commit()
}

// Changes a page, but for page 0.
fn put<S: Store>(store: &mut S, page: u64, byte: u8) -> Result<(), PageError>
    ensures { S.spoiled store.new ≡ S.spoiled store.old }
{
    if page == 0 {
        return Ok(());
    }
    store.put(page, &filled(byte))
}

// Makes a step in a unit of its own.
fn make_unit<S: Store>(store: &mut S, step: Step) -> Result<(), PageError>
    requires { S.spoiled store.old ≡ false }
{
    store.begin();
    match step {
        Step::Put(page, byte) => put(store, page, byte)?,
        Step::TakeAndPut(byte) => {
            let page = store.take()?;
            put(store, page, byte)?;
        }
        _ => (),
    }
    commit(store)
}

fn make(alloc: Global, host: &mut MemoryHost, step: Step) -> Result<(), Fail> {
    let mut pager = Pager::open(alloc, host)?;
    match step {
        Step::Checkpoint => pager.checkpoint()?,
        Step::Abandoned(page, byte) => {
            pager.begin();
            put(&mut pager, page, byte)?;
            pager.abandon();
        }
        Step::Give(page) => {
            pager.begin();
            if page != 0 && page < pager.header().count {
                pager.give(page)?;
            }
            commit(&mut pager)?;
        }
        _ => make_unit(&mut pager, step)?,
    }
    let _ = pager.close();
    Ok(())
}

const PICKS: [Pick; 3] = [Pick::Nothing, Pick::All, Pick::Filled];

// Whether each image that a crash after so many calls may leave has one of the states, also when its opening is stopped.
fn leaves_one(alloc: Global, host: &MemoryHost, calls: u64, states: &[State]) -> Result<bool, Fail>
    requires { calls ≤ host.now.calls }
{
    for pick in PICKS {
        let image = host.image(alloc, calls, pick)?;
        let state = state_of(alloc, &image)?;
        if !states.contains(&state) {
            return Ok(false);
        }
        if changes(alloc, host, calls, pick, &image)? && !stops_well(alloc, &image, state)? {
            return Ok(false);
        }
    }
    Ok(true)
}

// Whether the image isn't what a crash one call earlier would have left.
fn changes(
    alloc: Global,
    host: &MemoryHost,
    calls: u64,
    pick: Pick,
    image: &Image,
) -> Result<bool, Fail>
    requires { calls ≤ host.now.calls }
{
    if calls == 0 {
        return Ok(true);
    }
    let earlier = host.image(alloc, calls - 1, pick)?;
    Ok(!is_same(&earlier, image))
}

fn is_same(one: &Image, other: &Image) -> bool {
    one.pages.as_slice() == other.pages.as_slice() && one.log.as_slice() == other.log.as_slice()
}

// Whether an opening of the image that is stopped at each of its calls in turn leaves images with this state.
fn stops_well(alloc: Global, image: &Image, state: State) -> Result<bool, Fail> {
    let mut host = host_of(alloc, image, &[])?;
    let _opened = read_file(alloc, &mut host)?;
    for failing in 1..=host.calls() {
        let mut stopped = host_of(alloc, image, &[failing])?;
        if read_file(alloc, &mut stopped).is_ok() || !leaves(alloc, &stopped, image, state)? {
            return Ok(false);
        }
    }
    Ok(true)
}

// Whether each image that a crash now may leave is this one, or has its state.
fn leaves(alloc: Global, host: &MemoryHost, image: &Image, state: State) -> Result<bool, Fail> {
    let calls = host.calls();
    for pick in PICKS {
        let left = host.image(alloc, calls, pick)?;
        if !is_same(&left, image) && state_of(alloc, &left)? != state {
            return Ok(false);
        }
    }
    Ok(true)
}

#[test]
fn before_or_after(rt: HostRuntime) -> Result<(), Fail> {
    let alloc = rt.alloc();
    let mut host = MemoryHost::new(alloc, &[], &[], &[], &[])?;
    Pager::format(&mut host)?;
    // Each step, and the state after it.
    let steps: [(Step, State); 10] = [
        (Step::TakeAndPut(11), [3, 11, 11, 0, 0]),
        (Step::TakeAndPut(21), [4, 11, 11, 21, 21]),
        (Step::Abandoned(2, 99), [4, 11, 11, 21, 21]),
        (Step::Put(2, 12), [4, 12, 12, 21, 21]),
        (Step::Checkpoint, [4, 12, 12, 21, 21]),
        (Step::Put(3, 22), [4, 12, 12, 22, 22]),
        (Step::Give(3), [4, 12, 12, 7, 255]),
        (Step::Checkpoint, [4, 12, 12, 7, 255]),
        (Step::Nothing, [4, 12, 12, 7, 255]),
        (Step::TakeAndPut(31), [4, 12, 12, 31, 31]),
    ];
    let mut before = [2, 0, 0, 0, 0];
    for (step, after) in steps {
        let end = host.calls();
        let image = host.image(alloc, end, Pick::Nothing)?;
        host = host_of(alloc, &image, &[])?;
        make(alloc, &mut host, step)?;
        let calls = host.calls();
        for stop in 0..calls {
            assert!(rt;
                leaves_one(alloc, &host, stop, &[before, after])?,
                "{step:?}, {stop} calls"
            );
        }
        assert!(rt; leaves_one(alloc, &host, calls, &[after])?, "{step:?}");
        before = after;
    }
    Ok(())
}
