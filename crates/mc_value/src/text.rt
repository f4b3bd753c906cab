ghost use Rattle.std.specs.Prelude.{◌≡◌, nat_eq, string_bytes, IfOk};
ghost use Rattle.std.specs.Cmp.{partial_equiv_from_equiv};
ghost use Rattle.std.specs.Cmp.Lexicographic.{pointwise, nat_list_eq_equiv};

use sqlite_items::Items;
use std::alloc::{AllocError, Global};
use std::marker::Model;

/// A call wanted memory that was not there.
pub type NoMemory = AllocError;

/// A text that is kept, in UTF-8.
#[derive(Debug, Drop)]
pub struct Text {
    // set by `new`, `from_string` and `copy`, and then read alone
    string: String,
}

impl Model for Text {
    ghost use Rattle.std.specs.Prelude.{ℕ, List, string_bytes};

    ghost Value = { List ℕ };

    ghost view = { λ t. string_bytes t.string };
}

impl Text {
    /// A text of its own with the octets of `s`.
    pub fn new(alloc: Global, s: &str) -> Result<Text, NoMemory>
        ensures { IfOk result (λ t. t ≡ s.now) }
    {
        Ok(Text {
            string: String::from_str(alloc, s)?,
        })
    }

    /// The text that a string holds, which is not copied.
    pub fn from_string(string: String) -> Text
        ensures { result ≡ string_bytes string }
    {
        Text { string }
    }

    /// The text, to read.
    pub fn as_str(&self) -> &str
        ensures { result.now ≡ self.now }
    {
        self.string.as_str()
    }

    /// An equal text.
    pub fn copy(&self) -> Result<Text, NoMemory>
        ensures { IfOk result (λ t. t ≡ self.now) }
    {
        Ok(Text {
            string: self.string.clone()?,
        })
    }
}

impl PartialEq for Text {
    ghost eq = { pointwise nat_eq };

    ghost laws = { partial_equiv_from_equiv nat_list_eq_equiv };

    fn eq(&self, other: &Text) -> bool {
        self.as_str() == other.as_str()
    }
}

impl Eq for Text {
    ghost laws = { nat_list_eq_equiv };
}

/// A list of texts, as the words of a command.
pub type Words = Items<Text>;

/// Equal texts, in the same order.
pub fn copy_words(alloc: Global, words: &[Text]) -> Result<Words, NoMemory>
    ensures { IfOk result (λ ws. ws ≡ words.now) }
{
    let mut copied = Words::new(alloc);
    for word in words {
        copied.push(word.copy()?)?;
    }
    Ok(copied)
}
