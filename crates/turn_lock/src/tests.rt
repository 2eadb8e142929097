//! Tests of the lock with a roll and two callers on threads of their own: what the opening pass finds after they have
//! ended, and that a taker waits for the holder. No clause promises that memory is available, or that anyone ever gets
//! a turn.
ghost use Rattle.std.specs.Prelude.{◌≡◌, [], false, true, None, Some, IfOk};
ghost use Rattle.turn_lock.specs.Passes.{known, after_seeing};
ghost use Rattle.turn_lock.specs.Roll.{signer_of};

use crate::roll::{Roll, note_and_sign, sign, take_roll};
use crate::{HistoryLock, Kept, Pass};
use no_memory::NoMemory;
use std::alloc::Global;
use std::sync::Wait;
use std::sync::atomic::{AtomicBool, Ordering};
use std::test::Fail;
use std::thread;
use std::thread::{Threads, join};

const SIGNATURES: u32 = 1000;

type Parts = (HistoryLock<Roll>, Pass<Roll>, Pass<Roll>, Pass<Roll>);

// Makes a lock with an empty roll, its opening pass, and the passes of callers 1 and 2.
fn start(alloc: Global) -> Result<Parts, NoMemory>
    ensures opening { IfOk result (λ r. r.1 ≡ known r.0 0 [] [] false (Some 3) 0) }
    ensures first { IfOk result (λ r. r.2 ≡ known r.0 1 [] [] false None 0) }
    ensures second { IfOk result (λ r. r.3 ≡ known r.0 2 [] [] false None 0) }
{
    let (lock, mut opening) = HistoryLock::new(alloc, Roll::new(alloc), 3)?;
    let first = lock.new_pass(&mut opening);
    let second = lock.new_pass(&mut opening);
    Ok((lock, opening, first, second))
}

// Signs `count` times, taking a turn for each.
fn sign_often<R: Wait>(
    rt: &R,
    lock: &HistoryLock<Roll>,
    mut pass: Pass<Roll>,
    count: u32,
) -> Result<Pass<Roll>, NoMemory>
    requires { (pass.lock ≡ lock.now) × (pass.holds ≡ false) }
    ensures { IfOk result (λ after. after ≡ after_seeing pass after.seen false) }
{
    for _ in 0..count {
        sign(rt, lock, &mut pass)?;
    }
    Ok(pass)
}

// Lets callers 1 and 2 sign a thousand times each, on threads of their own.
fn signed_by_two<R: Threads + Wait + Sync>(rt: &R, alloc: Global) -> Result<Parts, NoMemory>
    ensures opening { IfOk result (λ r. r.1 ≡ known r.0 0 [] [] false (Some 3) 0) }
    ensures first { IfOk result (λ r. r.2 ≡ known r.0 1 [] r.2.seen false None 0) }
    ensures second { IfOk result (λ r. r.3 ≡ known r.0 2 [] r.3.seen false None 0) }
{
    let (lock, opening, first, second) = start(alloc)?;
    let shared = &lock;
    let (first, second) = join(
        rt,
        move || -> Result<Pass<Roll>, NoMemory>
            requires { (first.lock ≡ shared.now) × (first.holds ≡ false) }
            ensures { IfOk result (λ after. after ≡ after_seeing first after.seen false) }
        { sign_often(rt, shared, first, SIGNATURES) },
        move || -> Result<Pass<Roll>, NoMemory>
            requires { (second.lock ≡ shared.now) × (second.holds ≡ false) }
            ensures { IfOk result (λ after. after ≡ after_seeing second after.seen false) }
        { sign_often(rt, shared, second, SIGNATURES) },
    );
    let first = first?;
    let second = second?;
    Ok((lock, opening, first, second))
}

// Counts the signatures that the pass's next turn shows: all, those of caller 1, and those of caller 2.
fn counts<R: Wait>(rt: &R, lock: &HistoryLock<Roll>, pass: &mut Pass<Roll>) -> (usize, usize, usize)
    requires { (pass.old.lock ≡ lock.now) × (pass.old.holds ≡ false) }
    ensures { pass.new ≡ after_seeing pass.old pass.new.seen false }
{
    let mut turn = take_roll(rt, lock, pass);
    let signed = turn.value().signed();
    let all = signed.len();
    let first = signed.iter().filter(|caller| **caller == 1).count();
    let second = signed.iter().filter(|caller| **caller == 2).count();
    lock.give(pass, turn);
    (all, first, second)
}

#[test]
fn notes_of_two_threads_are_met(rt: HostRuntime) -> Result<(), Fail> {
    let (lock, mut opening, mut first, mut second) = signed_by_two(&rt, rt.alloc())?;
    let note = lock.note(&mut first);
    lock.meet(&mut opening, note);
    let note = lock.note(&mut second);
    lock.meet(&mut opening, note);
    assert_eq!(rt; counts(&rt, &lock, &mut opening), (2000, 1000, 1000));
    Ok(())
}

#[test]
fn passes_of_two_threads_end(rt: HostRuntime) -> Result<(), Fail> {
    let (lock, mut opening, first, second) = signed_by_two(&rt, rt.alloc())?;
    lock.end(&mut opening, first);
    lock.end(&mut opening, second);
    assert_eq!(rt; counts(&rt, &lock, &mut opening), (2000, 1000, 1000));
    Ok(())
}

#[test]
fn numbers_are_given_in_order(rt: HostRuntime) -> Result<(), Fail> {
    let (lock, mut opening) = HistoryLock::new(rt.alloc(), Roll::new(rt.alloc()), 3)?;
    assert_eq!(rt; (opening.caller(), lock.left(&opening)), (0, 2));
    let first = lock.new_pass(&mut opening);
    assert_eq!(rt; (first.caller(), lock.left(&opening)), (1, 1));
    let second = lock.new_pass(&mut opening);
    assert_eq!(rt; (second.caller(), lock.left(&opening)), (2, 0));
    Ok(())
}

// Lets other threads run until the flag is set, but at most a million times.
fn wait_for(flag: &AtomicBool) {
    for _ in 0..1_000_000 {
        if flag.load(Ordering::SeqCst) {
            return;
        }
        thread::yield_now();
    }
}

/// The signals between the holder and the taker.
#[derive(Drop)]
struct Flags {
    held: AtomicBool,
    begun: AtomicBool,
    given: AtomicBool,
}

// Takes a turn, and gives it back some time after the other has begun to wait for it.
fn hold<R: Wait>(rt: &R, lock: &HistoryLock<Roll>, mut pass: Pass<Roll>, flags: &Flags)
    requires { (pass.lock ≡ lock.now) × (pass.holds ≡ false) }
{
    let turn = take_roll(rt, lock, &mut pass);
    flags.held.store(true, Ordering::SeqCst);
    wait_for(&flags.begun);
    for _ in 0..1000 {
        thread::yield_now();
    }
    flags.given.store(true, Ordering::SeqCst);
    lock.give(&mut pass, turn);
}

// Takes a turn while the other holds one, and returns whether the other had given it back by then.
fn take_behind<R: Wait>(
    rt: &R,
    lock: &HistoryLock<Roll>,
    mut pass: Pass<Roll>,
    flags: &Flags,
) -> bool
    requires { (pass.lock ≡ lock.now) × (pass.holds ≡ false) }
{
    wait_for(&flags.held);
    flags.begun.store(true, Ordering::SeqCst);
    let turn = take_roll(rt, lock, &mut pass);
    let was_given = flags.given.load(Ordering::SeqCst);
    lock.give(&mut pass, turn);
    was_given
}

fn holder_and_taker<R: Threads + Wait + Sync>(rt: &R, alloc: Global) -> Result<bool, NoMemory> {
    let (lock, _opening, holder, taker) = start(alloc)?;
    let flags = Flags {
        held: AtomicBool::new(false),
        begun: AtomicBool::new(false),
        given: AtomicBool::new(false),
    };
    let (lock, flags) = (&lock, &flags);
    let (was_given, ()) = join(
        rt,
        move || -> bool
            requires { (taker.lock ≡ lock.now) × (taker.holds ≡ false) }
        { take_behind(rt, lock, taker, flags) },
        move || -> ()
            requires { (holder.lock ≡ lock.now) × (holder.holds ≡ false) }
        { hold(rt, lock, holder, flags) },
    );
    Ok(was_given)
}

#[test]
fn a_taker_waits_for_the_holder(rt: HostRuntime) -> Result<(), Fail> {
    assert!(rt; holder_and_taker(&rt, rt.alloc())?);
    Ok(())
}

#[test]
fn one_caller_signs_twice(rt: HostRuntime) -> Result<(), Fail> {
    let (lock, mut opening, mut first, mut second) = start(rt.alloc())?;
    sign(&rt, &lock, &mut first)?;
    let (note, done) = note_and_sign(&rt, &lock, &mut first);
    done?;
    lock.meet(&mut second, note);
    lock.end(&mut opening, second);
    assert_eq!(rt; counts(&rt, &lock, &mut opening), (2, 2, 0));
    Ok(())
}

/// A value with no entries, which sets its flag when it is dropped.
struct Watched<'a> {
    dropped: &'a AtomicBool,
}

impl<'a> Drop for Watched<'a> {
    fn drop(self) {
        let Watched { dropped } = self;
        dropped.store(true, Ordering::SeqCst);
    }
}

impl<'a> Kept for Watched<'a> {
    type Entry = u32;

    ghost list = { λ _. [] };

    ghost caller_of = { signer_of };

    fn entries(&self) -> u64 {
        0
    }
}

// In a plain run the allocator does not fail, and the lock is made. `rt try --test --fail-alloc N` makes the Nth
// allocation fail: `new` then returns `Err(NoMemory)`, and has dropped the value.
#[test]
fn a_lock_or_want_of_memory(rt: HostRuntime) -> Result<(), Fail> {
    let dropped = AtomicBool::new(false);
    let watched = Watched { dropped: &dropped };
    match HistoryLock::new(rt.alloc(), watched, 3) {
        Ok((lock, opening)) => {
            assert_eq!(rt; (opening.caller(), lock.left(&opening)), (0, 2));
            assert!(rt; !dropped.load(Ordering::SeqCst));
        }
        Err(NoMemory) => {
            println!(rt; "want of memory")?;
            assert!(rt; dropped.load(Ordering::SeqCst));
        }
    }
    Ok(())
}
