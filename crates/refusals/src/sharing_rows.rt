ghost use Rattle.std.specs.Prelude.{◌≡◌};

use crate::marks::{begin, end};
use crate::reading::plain_machine;
use history::Blank;
use keepers::Nowhere;
use mapmachine::Machine;
use mapshare::{Admin, KeepFailed, Reader, Retried, Sharing, Submitted, open};
use std::alloc::{AllocError, Global};
use std::io;
use std::marker::Brand;
use std::sync::Wait;

const BATCH: &[u8] = b"OFF a\n";

// The result of a batch.
#[derive(Clone, Copy, Debug, PartialEq, Eq)]
enum Became {
    Published,
    Held,
    Refused,
    NoMemory,
    Idle,
}

fn submit<S: Sharing, R: Wait>(
    rt: &R,
    system: &HostRuntime,
    admin: Admin<S, Nowhere>,
    batch: Vec<u8>,
) -> (Admin<S, Nowhere>, Became) {
    let _begun = begin(system);
    let (admin, submitted) = admin.submit(rt, batch);
    let _ended = end(system);
    match submitted {
        Submitted::Published(_) => (admin, Became::Published),
        Submitted::Held => (admin, Became::Held),
        Submitted::Refused(_) => (admin, Became::Refused),
        Submitted::NoMemory => (admin, Became::NoMemory),
    }
}

fn retry<S: Sharing, R: Wait>(
    rt: &R,
    system: &HostRuntime,
    admin: Admin<S, Nowhere>,
) -> (Admin<S, Nowhere>, Became) {
    let _begun = begin(system);
    let (admin, retried) = admin.retry(rt);
    let _ended = end(system);
    match retried {
        Retried::Published(_) => (admin, Became::Published),
        Retried::Held => (admin, Became::Held),
        Retried::Idle => (admin, Became::Idle),
    }
}

// The sequence that the first of some readers is shown.
fn seen<S: Sharing>(readers: &mut Vec<Reader<S>>) -> Option<u64> {
    let reader = readers.first_mut()?;
    match reader.enter() {
        Ok(entered) => Some(entered.sequence()),
        Err(_) => None,
    }
}

// Prints the result of a batch, and the sequence that readers are shown then.
fn print_result<S: Sharing>(system: &HostRuntime, became: Became, readers: &mut Vec<Reader<S>>) {
    let sequence = seen(readers);
    let _printed = println!(system; "{became:?}, readers see {sequence:?}");
}

// A machine that isn't shared yet, and the blank history of its sharing.
struct Unshared<'a> {
    blank: Blank,
    machine: &'a Machine,
}

// A machine that is shared.
struct Shared<S: Sharing> {
    admin: Admin<S, Nowhere>,
    readers: Vec<Reader<S>>,
}

// Submits a batch until it is published, three times at most. One that is held is tried again by `retry`.
fn submit_often<S: Sharing, R: Wait>(
    rt: &R,
    system: &HostRuntime,
    shared: Shared<S>,
    batches: [Vec<u8>; 2],
) -> Admin<S, Nowhere> {
    let Shared { admin, mut readers } = shared;
    let [first, second] = batches;
    let (admin, became) = submit(rt, system, admin, first);
    print_result(system, became, &mut readers);
    let (admin, became) = match became {
        Became::NoMemory => submit(rt, system, admin, second),
        _ => retry(rt, system, admin),
    };
    print_result(system, became, &mut readers);
    let (admin, became) = retry(rt, system, admin);
    print_result(system, became, &mut readers);
    admin
}

// Shares a machine and submits a batch, and returns whether it was shared.
fn submit_shared<S: Sharing, R: AllocGlobal + Wait>(
    rt: &R,
    system: &HostRuntime,
    unshared: Unshared<'_>,
    batches: [Vec<u8>; 2],
) -> bool
    requires history { unshared.blank.seen.book ≡ S.book }
    requires opening { unshared.machine.now ≡ S.opening }
{
    let Unshared { blank, machine } = unshared;
    let Ok((admin, readers)) = open::<S, Nowhere, R>(rt, blank, machine, 2) else {
        return false;
    };
    let admin = submit_often(rt, system, Shared { admin, readers }, batches);
    admin.close(rt);
    true
}

/// Submits a batch to a shared map.
pub fn submit_row<R: AllocGlobal + Wait>(rt: &R, system: &HostRuntime) -> io::Result<()> {
    let alloc = system.alloc();
    let machine = plain_machine(alloc)?;
    let batches = [
        Vec::from_slice(alloc, BATCH)?,
        Vec::from_slice(alloc, BATCH)?,
    ];
    let unshared = Unshared {
        blank: Blank::new(),
        machine: &machine,
    };
    let shared = submit_shared::<Brand, R>(rt, system, unshared, batches);
    println!(system; "shared {shared}")
}

// Accepts batches, prints how many it accepted, and returns that.
fn accept<S: Sharing>(
    system: &HostRuntime,
    admin: &mut Admin<S, Nowhere>,
    batches: &[Vec<u8>],
) -> usize {
    let mut nowhere = Nowhere;
    let _begun = begin(system);
    let accepted = admin.accept_kept(&mut nowhere, batches);
    let _ended = end(system);
    let count = match accepted {
        Ok(accepted) => accepted.count,
        Err(KeepFailed) => 0,
    };
    let _printed = println!(system; "{count} accepted");
    count
}

// Shares a machine, accepts batches, once more those that weren't, and publishes them. It returns whether the machine was shared.
fn accept_shared<S: Sharing, R: AllocGlobal + Wait>(
    rt: &R,
    system: &HostRuntime,
    unshared: Unshared<'_>,
    batches: &[Vec<u8>],
) -> bool
    requires history { unshared.blank.seen.book ≡ S.book }
    requires opening { unshared.machine.now ≡ S.opening }
{
    let Unshared { blank, machine } = unshared;
    let Ok((mut admin, mut readers)) = open::<S, Nowhere, R>(rt, blank, machine, 2) else {
        return false;
    };
    let count = accept(system, &mut admin, batches);
    accept(system, &mut admin, batches.get(count..).unwrap_or(&[]));
    let (admin, became) = retry(rt, system, admin);
    print_result(system, became, &mut readers);
    admin.close(rt);
    true
}

/// Has a shared map accept two batches.
pub fn accept_row<R: AllocGlobal + Wait>(rt: &R, system: &HostRuntime) -> io::Result<()> {
    let alloc = system.alloc();
    let machine = plain_machine(alloc)?;
    let mut batches = Vec::new(alloc);
    for batch in [BATCH, b"".as_slice()] {
        batches.push(Vec::from_slice(alloc, batch)?)?;
    }
    let unshared = Unshared {
        blank: Blank::new(),
        machine: &machine,
    };
    let shared = accept_shared::<Brand, R>(rt, system, unshared, &batches);
    println!(system; "shared {shared}")
}

// Shares a machine, and returns whether that was done.
fn share<S: Sharing, R: AllocGlobal + Wait>(
    rt: &R,
    system: &HostRuntime,
    blank: Blank,
    machine: &Machine,
) -> bool
    requires history { blank.seen.book ≡ S.book }
    requires opening { machine.now ≡ S.opening }
{
    let _begun = begin(system);
    let opened = open::<S, Nowhere, R>(rt, blank, machine, 2);
    let _ended = end(system);
    let Ok((admin, _readers)) = opened else {
        return false;
    };
    admin.close(rt);
    true
}

// Shares a machine under a name of its own.
fn share_once<R: AllocGlobal + Wait>(rt: &R, system: &HostRuntime, machine: &Machine) -> bool {
    share::<Brand, R>(rt, system, Blank::new(), machine)
}

/// Shares a machine, and once more where that was refused.
pub fn share_row<R: AllocGlobal + Wait>(rt: &R, system: &HostRuntime) -> io::Result<()> {
    let machine = plain_machine(system.alloc())?;
    if share_once(rt, system, &machine) {
        return println!(system; "shared");
    }
    println!(system; "NoMemory")?;
    let shared = share_once(rt, system, &machine);
    println!(system; "{}", if shared { "shared" } else { "NoMemory" })
}

// The result of a query to a reader.
#[derive(Clone, Copy, Debug, PartialEq, Eq)]
enum Said {
    Answered(usize),
    NoMemory,
    Closed,
}

// Has the first of some readers enter and answer a query, and prints the result.
fn ask<S: Sharing>(system: &HostRuntime, readers: &mut Vec<Reader<S>>) -> Said {
    let Some(reader) = readers.first_mut() else {
        return Said::Closed;
    };
    let _begun = begin(system);
    let said = match reader.enter() {
        Ok(entered) => match entered.answer(b"REQUEST=x") {
            Ok(answer) => Said::Answered(answer.body.len()),
            Err(_) => Said::NoMemory,
        },
        Err(_) => Said::Closed,
    };
    let _ended = end(system);
    let _printed = println!(system; "{said:?}");
    said
}

// Shares a machine and has a reader answer, and once more where memory was refused. It returns whether the machine was
// shared.
fn ask_shared<S: Sharing, R: AllocGlobal + Wait>(
    rt: &R,
    system: &HostRuntime,
    blank: Blank,
    machine: &Machine,
) -> bool
    requires history { blank.seen.book ≡ S.book }
    requires opening { machine.now ≡ S.opening }
{
    let Ok((admin, mut readers)) = open::<S, Nowhere, R>(rt, blank, machine, 2) else {
        return false;
    };
    if ask(system, &mut readers) == Said::NoMemory {
        ask(system, &mut readers);
    }
    admin.close(rt);
    true
}

/// Has a reader of a shared map answer.
pub fn enter_row<R: AllocGlobal + Wait>(rt: &R, system: &HostRuntime) -> io::Result<()> {
    let machine = plain_machine(system.alloc())?;
    let shared = ask_shared::<Brand, R>(rt, system, Blank::new(), &machine);
    println!(system; "shared {shared}")
}
