//! The last Hello of an interface (RFC 2328, section 9.5).
ghost use Rattle.std.specs.Prelude.{◌≡◌, ◌∷◌, [], Some};
ghost use Rattle.adjacency.specs.Contents.{SendsHello};
ghost use Rattle.area.specs.Doing.{LinkDoes};

use super::Link;
use packet::Hello;
use std::alloc::AllocError;
use words::Second;

impl Link {
    /// When the last Hello was sent, if one was.
    pub fn last_hello_sent(&self) -> Option<Second>
        ensures { result ≡ self.now.present.last_hello_sent }
    {
        *self.last_hello_sent.get()
    }

    /// Drafts a Hello at this moment.
    ///
    /// # Errors
    /// `AllocError` if an allocation is refused.
    pub fn draft_hello(&mut self, moment: Second, hello: Hello) -> Result<(), AllocError>
        ensures { LinkDoes (λ link. record link { last_hello_sent = Some moment })
            (λ link. SendsHello hello ∷ [])
            self.old self.new result }
    {
        self.last_hello_sent.set(Some(moment));
        self.draft.add_hello(hello)
    }
}
