ghost use Rattle.std.specs.Prelude.{◌≡◌, ◌+◌, ◌≤◌, [], ◌∷◌, ◌++◌, length, get_or, slice_get, option_map, IfSome, OnOk, OnErr};

use std::alloc::{AllocError, Global};
use std::marker::Model;

/// Texts that lie one after the other in one piece of memory. Contracts see the list of the texts.
#[derive(Drop)]
pub struct Texts {
    bytes: String,
    // Where each text ends.
    ends: Vec<u32>,
}

impl Model for Texts {
    ghost use Rattle.std.specs.Prelude.{List, ℕ, string_bytes};
    ghost use Rattle.mapdefs.specs.Texts.{texts_from, AreEndsFrom};

    ghost Value = { List (List ℕ) };

    ghost view = { λ t. texts_from (string_bytes t.bytes) 0 t.ends.items };

    ghost invariant = { λ t. AreEndsFrom (string_bytes t.bytes) 0 t.ends.items };
}

// Where a text of `more` bytes ends that begins after `len` bytes, unless that is too far.
fn end_after(len: usize, more: usize) -> Option<u32>
    ensures { IfSome result (λ end. end ≡ len + more) }
{
    u32::try_from(len.checked_add(more)?).ok()
}

// Where the text of an index begins.
fn start_of(ends: &[u32], index: usize) -> usize
    requires { index ≤ length ends.now }
    ensures { result ≡ get_or (0 ∷ ends.now) index 0 }
{
    if index == 0 {
        return 0;
    }
    ends[index - 1] as usize
}

impl Texts {
    /// No texts. It takes no memory.
    pub fn new(alloc: Global) -> Self
        ensures { result ≡ [] }
    {
        Texts {
            bytes: String::new(alloc),
            ends: Vec::new(alloc),
        }
    }

    /// How many texts there are.
    pub fn len(&self) -> usize
        ensures { result ≡ length self.now }
    {
        self.ends.len()
    }

    /// Adds a copy of a text at the end. Where memory is refused nothing changes, and it is where all texts would
    /// have 2^32 bytes or more.
    pub fn push(&mut self, text: &str) -> Result<(), AllocError>
        ensures ok { OnOk result (self.new ≡ self.old ++ text.now ∷ []) }
        ensures err { OnErr result (self.new ≡ self.old) }
    {
        let Some(end) = end_after(self.bytes.len(), text.len()) else {
            return Err(AllocError);
        };
        self.ends.reserve(1)?;
        self.bytes.push_str(text)?;
        self.ends.push_reserved(end);
        Ok(())
    }

    /// The text of an index.
    pub fn get(&self, index: usize) -> Option<&str>
        ensures { option_map (λ text. text.now) result ≡ slice_get self.now index }
    {
        if index >= self.ends.len() {
            return None;
        }
        let start = start_of(&self.ends, index);
        let end = self.ends[index] as usize;
        Some(&self.bytes.as_str()[start..end])
    }

    /// Gives back the memory that it has beyond what it needs.
    pub fn shrink_to_fit(&mut self)
        ensures { self.new ≡ self.old }
    {
        self.bytes.shrink_to_fit();
        self.ends.shrink_to_fit();
    }
}
