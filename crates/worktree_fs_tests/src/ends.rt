//! Interrupts and sinks.
use std::alloc::Global;
use worktree_fs::{Fault, FlagInterrupt, Interrupt, MemorySink, PlannedInterrupt, Sink, StdSink};

/// Whether an interrupt says so, question by question.
fn says<I: Interrupt>(interrupt: &mut I, wants: &[bool]) -> bool {
    let mut all = true;
    for want in wants {
        all &= interrupt.is_raised() == *want;
    }
    all
}

/// Whether a fork of an interrupt says so.
fn fork_says<I: Interrupt>(alloc: Global, interrupt: &mut I, wants: &[bool]) -> bool {
    match interrupt.fork(alloc) {
        Ok(other) => {
            let mut fork = other;
            let all = says(&mut fork, wants);
            interrupt.absorb(fork);
            all
        }
        Err(_) => false,
    }
}

fn plans(alloc: Global) -> bool {
    let mut never = PlannedInterrupt::never();
    let mut third = PlannedInterrupt::raised_from_nth_question(3);
    says(&mut never, &[false, false, false])
        && says(&mut third, &[false, false, true, true])
        && fork_says(alloc, &mut third, &[false, false, true])
}

/// Whether a flag is raised where a fork that was made before is.
fn is_raised_by_its_fork(alloc: Global, flag: &mut FlagInterrupt) -> bool {
    match flag.fork(alloc) {
        Ok(fork) => {
            fork.raise();
            let is_raised = says(flag, &[true]);
            flag.absorb(fork);
            is_raised
        }
        Err(_) => false,
    }
}

fn flags(alloc: Global) -> bool {
    match FlagInterrupt::new(alloc) {
        Ok(new) => {
            let mut flag = new;
            let is_quiet = says(&mut flag, &[false]) && fork_says(alloc, &mut flag, &[false]);
            is_quiet
                && is_raised_by_its_fork(alloc, &mut flag)
                && says(&mut flag, &[true])
                && fork_says(alloc, &mut flag, &[true])
        }
        Err(_) => false,
    }
}

#[test]
fn interrupts_are_raised(rt: HostRuntime) {
    assert!(rt; plans(rt.alloc()) && flags(rt.alloc()));
}

fn fills(alloc: Global) -> bool {
    match MemorySink::new(alloc, 5) {
        Ok(new) => {
            let mut sink = new;
            sink.fail_from(5);
            sink.write(b"abc") == Ok(3)
                && sink.write(b"") == Ok(0)
                && sink.write(b"defg") == Ok(2)
                && sink.write(b"h") == Ok(0)
                && sink.write(b"") == Err(Fault)
                && sink.written_bytes() == b"abcde".as_slice()
                && sink.room() == 0
        }
        Err(_) => false,
    }
}

#[test]
fn a_sink_is_filled(rt: HostRuntime) {
    assert!(rt; fills(rt.alloc()));
}

#[test]
fn the_streams_take_bytes(rt: HostRuntime) {
    let mut out = StdSink::out(&rt);
    let mut err = StdSink::err(&rt);
    let is_taken = out.write(b"out\n") == Ok(4) && err.write(b"") == Ok(0);
    assert!(rt; is_taken);
}
