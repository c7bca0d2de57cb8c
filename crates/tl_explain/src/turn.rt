//! The last messages that opened and closed a key.

ghost use Rattle.std.specs.Prelude.{◌≡◌, if◌then◌else◌, None, Some};
ghost use Rattle.tl_explain.specs.code.Recorded.{open_message};

use crate::told::Told;

/// The last message that opened a key, and the last that closed it.
#[derive(Clone, Copy)]
pub struct Turn {
    pub opening: Option<Told>,
    pub closing: Option<Told>,
}

/// Keeps a message if `keeps`.
#[inline(always)]
fn keep_if(slot: &mut Option<Told>, keeps: bool, told: &Told)
    ensures { slot.new ≡ (if keeps then Some told.now else slot.old) }
{
    if keeps {
        *slot = Some(*told);
    }
}

impl Turn {
    /// No message has opened or closed the key.
    pub fn new() -> Self
        ensures opening { result.opening ≡ None }
        ensures closing { result.closing ≡ None }
    {
        Turn {
            opening: None,
            closing: None,
        }
    }

    /// Takes a message. `opens` and `closes` say whether it opens and closes the key.
    #[inline(always)]
    pub fn take(&mut self, told: &Told, opens: bool, closes: bool)
        ensures opening { self.new.opening ≡ (if opens then Some told.now else self.old.opening) }
        ensures closing { self.new.closing ≡ (if closes then Some told.now else self.old.closing) }
    {
        keep_if(&mut self.opening, opens, told);
        keep_if(&mut self.closing, closes, told);
    }

    /// The message that opened the key, if none has closed it since.
    pub fn pending(&self) -> Option<Told>
        ensures { result ≡ open_message self.now }
    {
        let opening = self.opening?;
        match self.closing {
            Some(closing) if closing.mention.line > opening.mention.line => None,
            _ => Some(opening),
        }
    }
}
