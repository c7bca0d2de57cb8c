//! The pending message of each source.

ghost use Rattle.std.specs.Prelude.{ℕ, ◌≡◌, ◌<◌, ◌≤◌, ◌==◌, if◌then◌else◌, is_some, IfSome};
ghost use Rattle.tl_client.specs.statement.Ask;

/// The pending messages of one pool, by their sources.
#[derive(Drop)]
pub struct Sources<T: Copy> {
    with_source: [Option<T>; 8],
}

impl<T: Copy> Sources<T> {
    ghost use Rattle.tl_client.specs.code.Sources.{open_at, with_each};

    /// No message is pending.
    pub fn new() -> Self
        ensures { (s : ℕ) → open_at result s ≡ None }
    {
        Sources {
            with_source: [None; 8],
        }
    }

    /// The pending message with this source.
    pub fn at(&self, source: u8) -> Option<T>
        ensures { result ≡ open_at self.now source }
    {
        match self.with_source.get(usize::from(source)) {
            Some(message) => *message,
            None => None,
        }
    }

    /// The pending message of each source.
    pub fn all(&self) -> &[Option<T>; 8]
        ensures { result.now ≡ with_each self.now }
    {
        &self.with_source
    }

    /// The least free source below this number.
    pub fn least_free(&self, sources: u8) -> Option<u8>
        ensures least { result ≡ Ask.least_free (λ s. is_some (open_at self.now s)) 0 sources }
        ensures below { IfSome result (λ s. s < sources) }
    {
        for source in 0..sources {
            if self.at(source).is_none() {
                return Some(source);
            }
        }
        None
    }

    /// Makes this message pending with this source.
    pub fn open(&mut self, source: u8, message: T)
        requires { source < 8 }
        ensures { (s : ℕ) → open_at self.new s ≡ (if source == s then Some message else open_at self.old s) }
    {
        self.with_source[usize::from(source)] = Some(message);
    }

    /// Closes the pending message with this source, if there is one, and returns it.
    pub fn close(&mut self, source: u8) -> Option<T>
        ensures message { result ≡ open_at self.old source }
        ensures closed { (s : ℕ) → open_at self.new s ≡ (if source == s then None else open_at self.old s) }
    {
        let message = self.at(source);
        if source < 8 {
            self.with_source[usize::from(source)] = None;
        }
        message
    }
}
