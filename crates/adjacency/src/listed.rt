//! Entries of a neighbor's lists.
ghost use Rattle.std.specs.Prelude.{◌≡◌};
ghost use Rattle.lsdb.specs.Instances.{instance_of, listed_now};

use lsa::Header;
use lsdb::{Instance, age_at};
use std::marker::Model;
use words::Second;

/// The header of an instance, and the moment at which it had the header's age. Clauses see the
/// record of the definitions.
#[derive(Clone, Copy)]
pub struct ListEntry {
    pub header: Header,
    pub at: Second,
}

impl Model for ListEntry {
    ghost use Rattle.lsdb.specs.Instances.{ListEntry as Entry};

    ghost Value = { Entry };

    ghost view = { λ a. record { header = a.header; at = a.at } };

    ghost inverse = { λ e. record { header = e.header; at = e.at } };
}

/// The instance with this header at present.
pub fn instance_of(header: &Header) -> Instance
    ensures { result ≡ instance_of header.now }
{
    Instance {
        sequence: header.sequence,
        checksum: header.checksum,
        age: header.age,
    }
}

impl ListEntry {
    /// The instance at a moment.
    pub fn instance(&self, moment: Second) -> Instance
        ensures { result ≡ listed_now moment self.now }
    {
        Instance {
            sequence: self.header.sequence,
            checksum: self.header.checksum,
            age: age_at(self.header.age, self.at, moment),
        }
    }
}
