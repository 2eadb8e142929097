//! Calls a function on the elements of a slice; the calls on busy elements run at the same time.
ghost use Rattle.std.specs.Prelude.{◌≡◌, ◌<◌, ◌+◌, ◌^◌, length};
ghost use Rattle.std.specs.Fork.{AcceptsAt, AcceptsEach, ChangesAt, ChangesEach};
ghost use Rattle.std.specs.Thread.{IsSend, IsSync};
ghost use Rattle.lane_run.specs.Numbered.{AllChange, AllNumbered};

use std::thread::{Threads, join_mut};

/// Calls f(i, &mut items[i]) at each place. A place that `busy` does not have is not busy.
///
/// If two or more places are busy, each of their calls has a thread of its own, and they run at the same time; a call
/// for which no thread can be made is made on the caller's thread. All other calls are made one after another on the
/// caller's thread, and if fewer than two places are busy, no thread is started.
pub fn for_each_busy<R: Threads + Sync, T: Send, F: Fn(usize, &mut T) + Sync>(
    rt: &R,
    f: &F,
    busy: &[bool],
    items: &mut [T],
)
    requires { AcceptsEach F.Fn f.now items.old }
    ensures { ChangesEach F.Fn f.now items.old items.new }
{
    let apart = if are_several_busy(busy) { busy } else { &[] };
    call_each(rt, f, apart, 0, items);
}

// Returns whether two or more places are busy.
fn are_several_busy(busy: &[bool]) -> bool {
    busy.iter().filter(|is_busy| **is_busy).count() > 1
}

// Returns whether a place is busy.
fn is_busy_at(busy: &[bool], place: usize) -> bool {
    place < busy.len() && busy[place]
}

// Makes the call at one place.
fn call_one<T, F: Fn(usize, &mut T)>(f: &F, place: usize, item: &mut T)
    requires { AcceptsAt F.Fn f.now place item.old }
    ensures { ChangesAt F.Fn f.now place item.old item.new }
{
    f(place, item);
}

// Makes the calls at the places from `first` on, which is that of the first element. At a busy place the call has a
// thread of its own.
#[cycle(places)]
fn call_each<R: Threads + Sync, T: Send, F: Fn(usize, &mut T) + Sync>(
    rt: &R,
    f: &F,
    busy: &[bool],
    first: usize,
    items: &mut [T],
)
    requires room { first + length items.old < 2 ^ 64 }
    requires accepts { AllNumbered (AcceptsAt F.Fn f.now) first items.old }
    ensures { AllChange (ChangesAt F.Fn f.now) first items.old items.new }
{
    let Some((item, rest)) = items.split_first_mut() else {
        return;
    };
    if is_busy_at(busy, first) {
        call_apart(rt, f, busy, first, item, rest);
    } else {
        call_one(f, first, item);
        call_each(rt, f, busy, first + 1, rest);
    }
}

// Makes the call at a busy place on a thread of its own, and the calls at the places behind it.
//
// The last busy place has a thread of its own, too, so that the caller's thread only waits: a new thread shares a
// processor with the thread that started it until the system moves one of the two, which takes about ten milliseconds,
// and until then each of them runs at half speed if both have work.
#[cycle(places)]
fn call_apart<R: Threads + Sync, T: Send, F: Fn(usize, &mut T) + Sync>(
    rt: &R,
    f: &F,
    busy: &[bool],
    place: usize,
    item: &mut T,
    rest: &mut [T],
)
    requires accepts { AcceptsAt F.Fn f.now place item.old }
    requires room { place + 1 + length rest.old < 2 ^ 64 }
    requires rest_accepts { AllNumbered (AcceptsAt F.Fn f.now) (place + 1) rest.old }
    ensures item { ChangesAt F.Fn f.now place item.old item.new }
    ensures rest { AllChange (ChangesAt F.Fn f.now) (place + 1) rest.old rest.new }
{
    let mut call_item = ||
        requires { AcceptsAt F.Fn f.now place item.now }
        ensures { ChangesAt F.Fn f.entry.now place item.entry.now item.exit.now }
    { call_one(f, place, item) };
    let mut call_rest = ||
        requires { IsSync R.row × IsSync F.row × IsSend T.row × (place + 1 + length rest.now < 2 ^ 64) × AllNumbered (AcceptsAt F.Fn f.now) (place + 1) rest.now }
        ensures { AllChange (ChangesAt F.Fn f.entry.now) (place + 1) rest.entry.now rest.exit.now }
    { call_each(rt, f, busy, place + 1, rest) };
    join_mut(rt, &mut call_item, &mut call_rest);
}
