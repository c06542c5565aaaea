ghost use Rattle.std.specs.Prelude.{◌≡◌, ◌+◌, ◌-◌, ◌≤◌, None, OnOk, OnErr, IfErr, MatchResult, true};
ghost use Rattle.scripts.specs.Script.{script_of, fault_of};
ghost use Rattle.scripts.specs.Sent.{IsReplied, IsPartlyReplied};
ghost use Rattle.scripts.specs.Playing.{HasPlayed, HasPartlyPlayed};

use crate::script::{split_command, unreadable_command};
use crate::sending::{send_reply, send_script_fault};
use mapmachine::{Event, Machine};
use streams::{PutFailed, Sink, WriteFault};

/// Plays a script on the machine, and writes the transcript of its replies; of an unreadable script it plays nothing
/// and writes the fault. The error is that the writer failed: exactly the first `written` bytes of the text were sent,
/// and not all of them. The machine is in the state after the event whose reply they end in, and played none after it.
///
/// Only the machine takes memory.
pub fn play_script<S: Sink>(
    machine: &mut Machine,
    script: &[u8],
    sink: &mut S,
) -> Result<(), WriteFault>
    ensures played { OnOk result (HasPlayed machine.old script.now machine.new (S.held sink.old) (S.held sink.new)) }
    ensures part { IfErr result (λ e. HasPartlyPlayed machine.old script.now machine.new (S.held sink.old) (S.held sink.new) e.written) }
    ensures written { IfErr result (λ e. S.taken sink.new ≡ S.taken sink.old + e.written) }
    ensures flag { MatchResult result (λ _. S.put_failed sink.new ≡ S.put_failed sink.old) (λ _. S.put_failed sink.new ≡ true) }
{
    let before = sink.taken();
    match play_commands(machine, script, sink) {
        Ok(()) => Ok(()),
        Err(_) => Err(WriteFault::since(sink, before)),
    }
}

// Plays a script, or writes its fault.
fn play_commands<S: Sink>(
    machine: &mut Machine,
    script: &[u8],
    sink: &mut S,
) -> Result<(), PutFailed>
    ensures played { OnOk result (HasPlayed machine.old script.now machine.new (S.held sink.old) (S.held sink.new)) }
    ensures part { OnErr result
        (HasPartlyPlayed machine.old script.now machine.new
        (S.held sink.old)
        (S.held sink.new)
        (S.taken sink.new - S.taken sink.old)) }
    ensures grows { S.taken sink.old ≤ S.taken sink.new }
    ensures flag { MatchResult result (λ _. S.put_failed sink.new ≡ S.put_failed sink.old) (λ _. S.put_failed sink.new ≡ true) }
{
    match unreadable_command(script) {
        Some(number) => send_script_fault(sink, number),
        None => play_readable(machine, script, sink),
    }
}

// Writes the machine's reply to an event.
fn play_event<S: Sink>(machine: &mut Machine, event: &Event, sink: &mut S) -> Result<(), PutFailed>
    ensures ok { OnOk result (IsReplied machine.old event.now machine.new S.held S.taken sink.old sink.new) }
    ensures part { OnErr result (IsPartlyReplied machine.old event.now machine.new S.held S.taken sink.old sink.new) }
    ensures flag { MatchResult result (λ _. S.put_failed sink.new ≡ S.put_failed sink.old) (λ _. S.put_failed sink.new ≡ true) }
{
    let reply = machine.step(event);
    send_reply(sink, &reply)
}

// Plays a script that has no unreadable command.
fn play_readable<S: Sink>(
    machine: &mut Machine,
    script: &[u8],
    sink: &mut S,
) -> Result<(), PutFailed>
    requires readable { fault_of (script_of script.now) ≡ None }
    ensures played { OnOk result (HasPlayed machine.old script.now machine.new (S.held sink.old) (S.held sink.new)) }
    ensures part { OnErr result
        (HasPartlyPlayed machine.old script.now machine.new
        (S.held sink.old)
        (S.held sink.new)
        (S.taken sink.new - S.taken sink.old)) }
    ensures grows { S.taken sink.old ≤ S.taken sink.new }
    ensures flag { MatchResult result (λ _. S.put_failed sink.new ≡ S.put_failed sink.old) (λ _. S.put_failed sink.new ≡ true) }
{
    let mut rest = script;
    while let Some((event, others)) = split_command(rest) {
        play_event(machine, &event, sink)?;
        rest = others;
    }
    Ok(())
}
