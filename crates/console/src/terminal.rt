use streams::{Sink, Source};

/// A source whose state contracts see.
pub trait Reads: Source {
    ghost use Rattle.console.specs.Console.{InputState};

    // Its state.
    ghost state: { Self → InputState };
}

impl<I: Source> Reads for I {
    ghost state = { λ s. record { left = I.left s; failed = I.take_failed s } };
}

/// A sink whose state contracts see.
pub trait Writes: Sink {
    ghost use Rattle.console.specs.Console.{WriterState};

    // Its state.
    ghost state: { Self → WriterState };
}

impl<O: Sink> Writes for O {
    ghost state = { λ s. record { held = O.held s; failed = O.put_failed s; flushed = O.is_flushed s } };
}

/// The three streams of a program, whose states contracts see.
pub trait Terminal {
    ghost use Rattle.console.specs.Console.{ConsoleState};

    // Their states.
    ghost streams: { Self → ConsoleState };
}

/// The three streams of a program.
#[derive(Drop)]
pub struct Console<I, O, E> {
    /// The input, from which a session is read.
    pub input: I,
    /// The output, for answers.
    pub output: O,
    /// The errors, for faults and warnings.
    pub errors: E,
}

impl<I: Source, O: Sink, E: Sink> Terminal for Console<I, O, E> {
    ghost streams = { λ c. record {
      input = ⟦<I as Reads>⟧.state c.input;
      output = ⟦<O as Writes>⟧.state c.output;
      errors = ⟦<E as Writes>⟧.state c.errors;
    } };
}
