//! What an event sends at an interface, before it is ordered and packed into packets.
ghost use Rattle.std.specs.Prelude.{◌≡◌, ◌∷◌, [], ℕ, OnOk};
ghost use Rattle.lsdb.specs.Copies.{lsa_now};
ghost use Rattle.adjacency.specs.Contents.{Acknowledges, Describes, SendsHello, Requests, Updates};
ghost use Rattle.adjacency.specs.Drafts.{drafting, nothing_drafted};

use lsa::Header;
use lsdb::DatabaseCopy;
use packet::{Description, Hello};
use std::alloc::{AllocError, Global};
use std::marker::Model;
use words::{Key, MAX_AGE, Second, Sequence};

/// One LSA for a Link State Update, which isn't the packet itself: its key, and its bytes with the
/// age that it has there.
#[derive(Drop)]
pub struct Update {
    pub key: Key,
    pub text: Sequence<u8>,
}

/// What is to be sent at an interface, by packet type, each in order.
#[derive(Drop)]
pub struct Draft {
    hellos: Vec<Hello>,
    descriptions: Vec<Description>,
    requests: Vec<Sequence<Key>>,
    updates: Vec<Update>,
    acknowledgments: Vec<Header>,
}

/// The lists of a `Draft`, which are ordered and packed elsewhere.
#[derive(Drop)]
pub struct DraftLists {
    pub hellos: Vec<Hello>,
    pub descriptions: Vec<Description>,
    /// Link State Requests, each as its keys.
    pub requests: Vec<Sequence<Key>>,
    /// The LSAs for Link State Updates.
    pub updates: Vec<Update>,
    /// The headers for Link State Acknowledgments.
    pub acknowledgments: Vec<Header>,
}

impl Model for Draft {
    ghost use Rattle.adjacency.specs.Drafts.{Drafted};

    ghost Value = { Drafted };

    ghost view = { λ a. record {
      hellos = a.hellos.items;
      descriptions = a.descriptions.items;
      requests = a.requests.items;
      updates = a.updates.items;
      acknowledgments = a.acknowledgments.items;
    } };
}

impl Draft {
    /// An empty draft. It doesn't allocate.
    pub fn new(alloc: Global) -> Self
        ensures { result ≡ nothing_drafted }
    {
        Draft {
            hellos: Vec::new(alloc),
            descriptions: Vec::new(alloc),
            requests: Vec::new(alloc),
            updates: Vec::new(alloc),
            acknowledgments: Vec::new(alloc),
        }
    }

    /// Adds a Hello.
    ///
    /// # Errors
    /// `AllocError` if an allocation is refused.
    pub fn add_hello(&mut self, hello: Hello) -> Result<(), AllocError>
        ensures { OnOk result ((delay : ℕ) → self.new
            ≡ drafting delay (SendsHello hello ∷ []) self.old) }
    {
        self.hellos.push(hello)?;
        Ok(())
    }

    /// Adds a Database Description.
    ///
    /// # Errors
    /// `AllocError` if an allocation is refused.
    pub fn add_description(&mut self, description: Description) -> Result<(), AllocError>
        ensures { OnOk result ((delay : ℕ) → self.new
            ≡ drafting delay (Describes description ∷ []) self.old) }
    {
        self.descriptions.push(description)?;
        Ok(())
    }

    /// Adds a Link State Request for these keys.
    ///
    /// # Errors
    /// `AllocError` if an allocation is refused.
    pub fn add_request(&mut self, keys: Sequence<Key>) -> Result<(), AllocError>
        ensures { OnOk result ((delay : ℕ) → self.new
            ≡ drafting delay (Requests keys ∷ []) self.old) }
    {
        self.requests.push(keys)?;
        Ok(())
    }

    /// Adds the copy to be sent in a Link State Update, its age at the moment incremented by
    /// InfTransDelay.
    ///
    /// # Errors
    /// `AllocError` if an allocation is refused.
    pub fn add_update(
        &mut self,
        alloc: Global,
        delay: u16,
        moment: Second,
        copy: &DatabaseCopy<'_>,
    ) -> Result<(), AllocError>
        ensures { OnOk result (self.new ≡ drafting delay (Updates (lsa_now moment copy.now) ∷ [])
            self.old) }
    {
        let header = copy.header(moment);
        let age = (u32::from(header.age) + u32::from(delay)).min(u32::from(MAX_AGE)) as u16;
        let text = copy.text(alloc, age)?;
        let key = header.key();
        self.updates.push(Update { key, text })?;
        Ok(())
    }

    /// Adds an acknowledgment of the instance.
    ///
    /// # Errors
    /// `AllocError` if an allocation is refused.
    pub fn add_acknowledgment(&mut self, header: Header) -> Result<(), AllocError>
        ensures { OnOk result ((delay : ℕ) → self.new
            ≡ drafting delay (Acknowledges header ∷ []) self.old) }
    {
        self.acknowledgments.push(header)?;
        Ok(())
    }

    /// The LSAs to be sent in Link State Updates.
    pub fn updates(&self) -> &[Update]
        ensures { result.now ≡ self.now.updates }
    {
        &self.updates
    }

    /// Nothing is to be sent any more. It keeps the buffers, and doesn't allocate.
    pub fn clear(&mut self)
        ensures { self.new ≡ nothing_drafted }
    {
        self.hellos.clear();
        self.descriptions.clear();
        self.requests.clear();
        self.updates.clear();
        self.acknowledgments.clear();
    }

    /// Returns the lists, without allocating.
    pub fn into_lists(self) -> DraftLists
        ensures hellos { result.hellos.items ≡ self.hellos }
        ensures descriptions { result.descriptions.items ≡ self.descriptions }
        ensures requests { result.requests.items ≡ self.requests }
        ensures updates { result.updates.items ≡ self.updates }
        ensures acknowledgments { result.acknowledgments.items ≡ self.acknowledgments }
    {
        let Draft {
            hellos,
            descriptions,
            requests,
            updates,
            acknowledgments,
        } = self;
        DraftLists {
            hellos,
            descriptions,
            requests,
            updates,
            acknowledgments,
        }
    }
}
