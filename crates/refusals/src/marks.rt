ghost use Rattle.std.specs.Prelude.{◌≡◌, IfOk, is_some};

use std::io;

/// Prints that a call begins.
pub fn begin(rt: &HostRuntime) -> io::Result<()> {
    println!(rt; ">")
}

/// Prints that it has ended.
pub fn end(rt: &HostRuntime) -> io::Result<()> {
    println!(rt; "<")
}

/// Prints the answer of a call, and returns whether there is one.
pub fn print_answer(rt: &HostRuntime, answer: Option<String>) -> io::Result<bool>
    ensures { IfOk result (λ is_answered. is_answered ≡ is_some answer) }
{
    match answer {
        Some(text) => {
            println!(rt; "{text}")?;
            Ok(true)
        }
        None => {
            println!(rt; "NoMemory")?;
            Ok(false)
        }
    }
}

/// A call that changes something.
pub trait Call {
    /// The state that it changes, as it is now.
    fn state(&self, rt: &HostRuntime) -> io::Result<String>;

    /// Makes the call between the marks. Without an answer memory was refused.
    fn call(&mut self, rt: &HostRuntime) -> io::Result<Option<String>>;
}

/// Makes such a call, and prints the state that it changes before and after. Where memory was refused it is made once
/// more.
pub fn play_on<C: Call>(rt: &HostRuntime, call: &mut C) -> io::Result<()> {
    println!(rt; "before: {}", call.state(rt)?)?;
    let answer = call.call(rt)?;
    let is_answered = print_answer(rt, answer)?;
    println!(rt; "after: {}", call.state(rt)?)?;
    if !is_answered {
        let answer = call.call(rt)?;
        print_answer(rt, answer)?;
        println!(rt; "after: {}", call.state(rt)?)?;
    }
    Ok(())
}
