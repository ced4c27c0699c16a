//! The words before the command word.
ghost use Rattle.std.specs.Prelude.{◌≡◌, ◌≤◌, ◌<◌, ◌+◌, length, map, string_bytes};
ghost use Rattle.std.specs.Option.{option_copied};
ghost use Rattle.psi_words.specs.Forms.{is_of, read};
ghost use Rattle.psi_words.specs.Forms.Form.{Number};
ghost use Rattle.psi_words.specs.Grammar.{drop_word, lead_forms, lead_of};
ghost use Rattle.psi_words.specs.Leads.{drop_read, shown};

use crate::fault::WordFault;
use crate::forms::read_number;

/// The words before the command word.
#[derive(Clone, Copy)]
pub struct Lead<'a> {
    /// DROP, next after a first word `form2`.
    pub drop: Option<&'a str>,
    /// Whether `counted` stands first, or next after DROP.
    pub counted: bool,
}

impl<'a> Lead<'a> {
    /// The words before the command word of a line.
    pub fn of(words: &'a [String]) -> Lead<'a>
        ensures lead { shown result ≡ lead_of (map string_bytes words.now) }
        ensures within { length (lead_forms (shown result)) ≤ length words.now }
    {
        let drop = drop_word(words);
        let at = if drop.is_some() { 2 } else { 0 };
        let counted = words.get(at).is_some_and(|word| word.as_str() == "counted");
        Lead { drop, counted }
    }

    /// How many words these are.
    pub fn len(&self) -> usize
        ensures { result ≡ length (lead_forms (shown self.now)) }
    {
        let dropped = if self.drop.is_some() { 2 } else { 0 };
        dropped + usize::from(self.counted)
    }

    /// The number of the word with the number `k` behind the command word.
    pub fn number(&self, k: u32) -> u32
        requires { k < 10 }
        ensures { result ≡ length (lead_forms (shown self.now)) + 1 + k }
    {
        self.len() as u32 + 1 + k
    }

    /// The value of DROP, if it is there.
    pub fn drop_value(&self) -> Result<Option<u8>, WordFault>
        ensures { result ≡ drop_read (shown self.now).drop }
    {
        match self.drop {
            None => Ok(None),
            Some(word) => Ok(Some(read_number(word, 1, 0, 255)? as u8)),
        }
    }
}

// DROP: the word next after a first word `form2`.
fn drop_word(words: &[String]) -> Option<&str>
    ensures { option_copied result ≡ drop_word (map string_bytes words.now) }
{
    let (first, rest) = words.split_first()?;
    if first.as_str() == "form2" {
        Some(rest.first()?.as_str())
    } else {
        None
    }
}
