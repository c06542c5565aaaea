ghost use Rattle.std.specs.Prelude.{◌≡◌, map, IfOk, string_bytes, Ok};
ghost use Rattle.std.specs.Result.{result_map_both};
ghost use Rattle.program.specs.Answering.{Answers};

use crate::ending::Ending;
use crate::explaining::{explain_end, explains_end};
use crate::host::Host;
use crate::known::Known;
use crate::program::Program;
use commandline::{WordsFault, command};
use console::{Console, Failure, Terminal, report};
use network::Network;
use service::Runtime;
use std::alloc::{AllocError, Global};
use streams::{Sink, Source};
use thiserror::Error;

/// Why the arguments can't be read.
#[derive(Clone, Copy, Debug, Error)]
pub enum ArgumentsUnread {
    /// One of them isn't UTF-8.
    #[error("an argument is not UTF-8")]
    NoText,
    /// Memory was refused.
    #[error("out of memory")]
    NoMemory,
}

// Arguments as texts.
fn texts_of<'a>(alloc: Global, arguments: &'a [String]) -> Result<Vec<&'a str>, AllocError>
    ensures { IfOk result (λ texts. map (λ text. text.now) texts.items ≡ map string_bytes arguments.now) }
{
    let mut texts = Vec::new(alloc);
    for argument in arguments {
        texts.push(argument.as_str())?;
    }
    Ok(texts)
}

impl<R: Runtime, H: Host> Program<'_, R, H> {
    // Performs the command of texts.
    fn answer_texts<I: Source, O: Sink, E: Sink>(
        &self,
        texts: &[&str],
        console: &mut Console<I, O, E>,
    ) -> Ending<H::Port, H::Log>
        ensures { Answers (⟦<H as Known<R>>⟧.view self.now.host.now)
            (Ok (map (λ text. text.now) texts.entry.now)) result (⟦<Console<I, O, E> as Terminal>⟧.streams console.old)
            (⟦<Console<I, O, E> as Terminal>⟧.streams console.new) }
    {
        match command(self.rt.alloc(), texts) {
            Ok(command) => {
                let ending = self.perform(command, console);
                explain_end(explains_end(command), ending.outcome(), &mut console.errors);
                ending
            }
            Err(WordsFault::Refused { text }) => {
                report(&mut console.errors, &[text.as_bytes()]);
                Ending::after(Err(Failure::ArgumentsRefused))
            }
            Err(WordsFault::NoMemory) => Ending::after(Err(Failure::NoMemory)),
        }
    }

    // Performs the command of arguments.
    fn answer_strings<I: Source, O: Sink, E: Sink>(
        &self,
        arguments: &[String],
        console: &mut Console<I, O, E>,
    ) -> Ending<H::Port, H::Log>
        ensures { Answers (⟦<H as Known<R>>⟧.view self.now.host.now)
            (Ok (map string_bytes arguments.now)) result (⟦<Console<I, O, E> as Terminal>⟧.streams console.old)
            (⟦<Console<I, O, E> as Terminal>⟧.streams console.new) }
    {
        match texts_of(self.rt.alloc(), arguments) {
            Ok(texts) => self.answer_texts(&texts, console),
            Err(_) => Ending::after(Err(Failure::NoMemory)),
        }
    }

    /// Performs the command of the program's arguments, or reports the fault in them. Returns how the program ends.
    pub fn answer<I: Source, O: Sink, E: Sink>(
        &self,
        arguments: Result<Vec<String>, ArgumentsUnread>,
        console: &mut Console<I, O, E>,
    ) -> Ending<H::Port, H::Log>
        ensures answers { Answers (⟦<H as Known<R>>⟧.view self.now.host.now)
            (result_map_both (λ w. map string_bytes w.items) (λ e. e) arguments) result (⟦<Console<I, O, E> as Terminal>⟧.streams console.old)
            (⟦<Console<I, O, E> as Terminal>⟧.streams console.new) }
    {
        match arguments {
            Ok(arguments) => self.answer_strings(&arguments, console),
            Err(ArgumentsUnread::NoText) => {
                report(&mut console.errors, &[b"error: an argument is not UTF-8\n"]);
                Ending::after(Err(Failure::ArgumentsRefused))
            }
            Err(ArgumentsUnread::NoMemory) => Ending::after(Err(Failure::NoMemory)),
        }
    }
}
