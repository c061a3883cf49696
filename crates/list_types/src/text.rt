ghost use Rattle.std.specs.Prelude.{◌≡◌, [], ◌++◌, IfOk, OnOk, OnErr};

use crate::out_of_memory::OutOfMemory;
use std::alloc::Global;
use std::marker::Model;

/// A text on the heap, which contracts see as the list of its UTF-8 bytes.
#[derive(Drop)]
pub struct Text {
    characters: String,
}

impl Model for Text {
    ghost use Rattle.std.specs.Prelude.{List, ℕ};
    ghost use Rattle.std.specs.String.{string_bytes};

    ghost Value = { List ℕ };

    ghost view = { λ a. string_bytes a.characters };
}

impl Text {
    /// The empty text. It takes no memory until the first `push_str`.
    pub fn new(alloc: Global) -> Self
        ensures { result ≡ [] }
    {
        Text {
            characters: String::new(alloc),
        }
    }

    /// A text with these characters. Fails only for want of memory.
    pub fn of(alloc: Global, characters: &str) -> Result<Text, OutOfMemory>
        ensures { IfOk result (λ text. text ≡ characters.now) }
    {
        let mut text = Text::new(alloc);
        text.push_str(characters)?;
        Ok(text)
    }

    /// Adds a text at the end. A refused push leaves the text as it was.
    pub fn push_str(&mut self, text: &str) -> Result<(), OutOfMemory>
        ensures ok { OnOk result (self.new ≡ self.old ++ text.now) }
        ensures err { OnErr result (self.new ≡ self.old) }
    {
        self.characters.push_str(text)?;
        Ok(())
    }

    /// The text.
    pub fn as_str(&self) -> &str
        ensures { result.now ≡ self.now }
    {
        self.characters.as_str()
    }
}
