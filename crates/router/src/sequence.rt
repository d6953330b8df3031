//! Sequence numbers of self-originated LSAs (RFC 2328, section 12.1.6).
ghost use Rattle.std.specs.Prelude.{◌≡◌, ◌≢◌, IfSome};
ghost use Rattle.lsa.specs.Text.{reserved_sequence};
ghost use Rattle.router.specs.Instances.{next_number, number_after};

use area::DatabaseCopy;
use words::SequenceNumber;

// The next sequence number, or `None` after MaxSequenceNumber.
fn after(number: SequenceNumber) -> Option<SequenceNumber>
    ensures { result ≡ number_after number }
{
    number.next()
}

/// The sequence number of the next instance: the one after the copy's, or InitialSequenceNumber if
/// there is no copy; `None` after MaxSequenceNumber.
pub fn next_number(copy: Option<DatabaseCopy<'_>>) -> Option<SequenceNumber>
    ensures number { result ≡ next_number copy.entry }
    ensures lawful { IfSome result (λ number. number ≢ reserved_sequence) }
{
    let Some(copy) = copy else {
        return Some(SequenceNumber::INITIAL);
    };
    let header = copy.lsa.header();
    // For the prover alone, by what the call ensures.
    header.prove_ranges();
    after(header.sequence)
}
