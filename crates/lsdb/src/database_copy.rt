//! A borrowed copy of the database.
ghost use Rattle.std.specs.Prelude.{◌≡◌, ◌≤◌, IfOk};
ghost use Rattle.words.specs.Constants.{max_age};
ghost use Rattle.lsa.specs.Text.{text};
ghost use Rattle.lsdb.specs.Copies.{age_now, copy_header, copy_now, is_aged_out};
ghost use Rattle.lsdb.specs.Headers.{lsa_with_age};

use crate::order::{Instance, age_at};
use crate::times::CopyTimes;
use lsa::{Header, Lsa, write_at_age};
use std::alloc::{AllocError, Global};
use std::marker::Model;
use words::{MAX_AGE, Second, Sequence};

/// A copy of an LSA, borrowed from the database. Clauses see it as the database has it.
#[derive(Drop)]
pub struct DatabaseCopy<'a> {
    pub lsa: &'a Lsa,
    pub times: CopyTimes,
}

impl<'a> Model for DatabaseCopy<'a> {
    ghost use Rattle.lsdb.specs.Copies.{DatabaseCopy as Kept, copy_of};

    ghost Value = { Kept };

    ghost view = { λ a. copy_of a.lsa.now a.times };
}

impl<'a> DatabaseCopy<'a> {
    /// Its age at the moment, in seconds, at most 3600.
    pub fn age(&self, moment: Second) -> u16
        ensures age { result ≡ age_now moment self.now }
        ensures most { result ≤ max_age }
    {
        age_at(self.times.age, self.times.stored, moment)
    }

    /// Whether it is at MaxAge at the moment.
    pub fn is_aged_out(&self, moment: Second) -> bool
        ensures { result ≡ is_aged_out moment self.now }
    {
        self.age(moment) == MAX_AGE
    }

    /// Its header with its age at the moment.
    pub fn header(&self, moment: Second) -> Header
        ensures { result ≡ copy_header moment self.now }
    {
        let age = age_at(self.times.age, self.times.stored, moment);
        Header {
            age,
            ..self.lsa.header()
        }
    }

    /// The instance at the moment.
    pub fn instance(&self, moment: Second) -> Instance
        ensures { result ≡ copy_now moment self.now }
    {
        let header = self.header(moment);
        Instance {
            sequence: header.sequence,
            checksum: header.checksum,
            age: header.age,
        }
    }

    /// Its bytes at this age, in seconds.
    ///
    /// # Errors
    /// `AllocError` if an allocation is refused.
    pub fn text(&self, alloc: Global, age: u16) -> Result<Sequence<u8>, AllocError>
        requires { age ≤ max_age }
        ensures { IfOk result (λ bytes. bytes ≡ text (lsa_with_age age self.now.lsa)) }
    {
        let bytes = write_at_age(alloc, self.lsa, age)?;
        Ok(Sequence::from_vec(bytes))
    }
}
