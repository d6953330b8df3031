//! LSAs whose encoding is valid.
ghost use Rattle.std.specs.Prelude.{◌≡◌, ◌≢◌, ◌≤◌, ◌⊎◌, ◌++◌, length, IfOk, OnOk};
ghost use Rattle.lsa.specs.Text.{IsBody, LsaText, Parts, body_text, reserved_sequence};
ghost use Rattle.words.specs.Constants.{max_age};
ghost use Rattle.lsa.specs.Text.{text};
ghost use Rattle.lsa.specs.Origination.{with_age, sealed_lsa};
ghost use Rattle.lsa.specs.Outcome.{Reads};
ghost use Rattle.lsa.specs.Ranges.{BodyFits};

use crate::body::LsaBody;
use crate::checksum::checksum_of;
use crate::copying::copy_body;
use crate::fault::LsaError;
use crate::header::{HEADER_LENGTH, Header, header_at, put_header};
use crate::reading::{body, fault};
use crate::writing::{put_body, type_of};
use std::alloc::{AllocError, Global};
use std::marker::Model;

/// A link state advertisement: its header and its body. Its encoding is valid, and its checksum is
/// correct. Clauses see the record of both.
#[derive(Drop)]
pub struct Lsa {
    header: Header,
    body: LsaBody,
}

impl Model for Lsa {
    ghost use Rattle.lsa.specs.Text.{Parts, IsChecked};

    ghost Value = { Parts };

    ghost view = { λ a. record { header = a.header; body = a.body } };

    ghost invariant = { λ a. IsChecked (record { header = a.header; body = a.body }) };
}

impl Lsa {
    /// An LSA to be originated: the header's type, length and checksum are computed from the body,
    /// whatever they were, with check bytes from 1 to 255.
    ///
    /// # Errors
    /// `AllocError` if an allocation is refused.
    pub fn new(alloc: Global, header: Header, body: LsaBody) -> Result<Self, AllocError>
        requires age { header.age ≤ max_age }
        requires sequence { header.sequence ≢ reserved_sequence }
        requires body { BodyFits body }
        requires size { length (body_text body) ≤ 65515 }
        ensures { IfOk result (λ lsa. lsa ≡ sealed_lsa (record { header = header; body = body })) }
    {
        // For the prover alone, by what the calls ensure.
        header.prove_ranges();
        body.prove_ranges();
        let mut rest = Vec::new(alloc);
        put_body(&mut rest, &body)?;
        let unchecked = Header {
            ls_type: type_of(&body),
            checksum: 0,
            length: (HEADER_LENGTH + rest.len()) as u16,
            ..header
        };
        let mut text = written(alloc, &unchecked, &body)?;
        let header = Header {
            checksum: checksum_of(&mut text),
            ..unchecked
        };
        Ok(Lsa { header, body })
    }

    /// Sets the age of this instance, in seconds: at most 3600 (MaxAge). The checksum stays right,
    /// since it doesn't cover the age (RFC 2328, section 12.1.7).
    pub fn set_age(&mut self, age: u16)
        requires { age ≤ max_age }
        ensures { self.new ≡ with_age age self.old }
    {
        self.header.age = age;
    }

    /// For the prover alone: tells it that the age is at most 3600 (MaxAge), which an LSA always
    /// keeps. It does nothing at run time.
    pub fn prove_age(&self)
        ensures { self.now.header.age ≤ max_age }
    {
        let _header = &self.header;
    }

    /// A copy of the LSA.
    ///
    /// # Errors
    /// `AllocError` if an allocation is refused.
    pub fn copy(&self) -> Result<Self, AllocError>
        ensures { IfOk result (λ copy. copy ≡ self.now) }
    {
        let body = copy_body(&self.body)?;
        Ok(Lsa {
            header: self.header,
            body,
        })
    }

    /// The LSA's header.
    pub fn header(&self) -> Header
        ensures { result ≡ self.now.header }
    {
        self.header
    }

    /// Appends the bytes of the body.
    ///
    /// # Errors
    /// `AllocError` if an allocation is refused.
    pub fn put_body(&self, out: &mut Vec<u8>) -> Result<(), AllocError>
        ensures { OnOk result (out.new.items ≡ out.old.items ++ body_text self.now.body) }
    {
        put_body(out, &self.body)
    }

    /// The LSA's body.
    pub fn body(&self) -> &LsaBody
        ensures { result.now ≡ self.now.body }
    {
        &self.body
    }
}

// The LSA in the bytes, or the first fault.
fn parsed(alloc: Global, bytes: &[u8]) -> Result<Lsa, LsaError>
    ensures { Reads bytes.now result }
{
    if let Some(fault) = fault(bytes) {
        return Err(LsaError::Fault(fault));
    }
    let header = header_at(bytes, 0);
    let body = body(alloc, header.ls_type, bytes)?;
    Ok(Lsa { header, body })
}

/// Parses an LSA from all of the bytes, from its age to the last byte of its body.
///
/// # Errors
/// `Fault` with the first fault of the bytes, in the order of [`LsaFault`](crate::LsaFault);
/// `Memory` if they have none, and an allocation is refused.
pub fn read(alloc: Global, bytes: &[u8]) -> Result<Lsa, LsaError>
    // The bytes encode the LSA that is returned.
    ensures found { IfOk result (λ lsa. LsaText bytes.now lsa) }
    // The bytes of an LSA are parsed as that LSA, unless an allocation is refused.
    ensures only { (lsa : Parts) → LsaText bytes.now lsa → result ≡ Ok lsa
        ⊎ (result ≡ Err LsaError.Memory) }
    // Which fault it is; `Memory` is returned only if there is none.
    ensures exact { Reads bytes.now result }
{
    parsed(alloc, bytes)
}

fn written(alloc: Global, header: &Header, body: &LsaBody) -> Result<Vec<u8>, AllocError>
    requires { IsBody body.now }
    ensures { IfOk result (λ bytes. bytes.items
        ≡ text (record { header = header.now; body = body.now })) }
{
    let mut out = Vec::with_capacity(alloc, usize::from(header.length))?;
    put_header(&mut out, header)?;
    put_body(&mut out, body)?;
    Ok(out)
}

/// The bytes of the LSA.
///
/// # Errors
/// `AllocError` if an allocation is refused.
pub fn write(alloc: Global, lsa: &Lsa) -> Result<Vec<u8>, AllocError>
    ensures written { IfOk result (λ bytes. bytes.items ≡ text lsa.now) }
    ensures text { IfOk result (λ bytes. LsaText bytes.items lsa.now) }
{
    written(alloc, &lsa.header, &lsa.body)
}

/// The bytes of the LSA at another age, in seconds, as it is sent.
///
/// # Errors
/// `AllocError` if an allocation is refused.
pub fn write_at_age(alloc: Global, lsa: &Lsa, age: u16) -> Result<Vec<u8>, AllocError>
    requires { age ≤ max_age }
    ensures written { IfOk result (λ bytes. bytes.items ≡ text (with_age age lsa.now)) }
    ensures text { IfOk result (λ bytes. LsaText bytes.items (with_age age lsa.now)) }
{
    let header = Header { age, ..lsa.header };
    written(alloc, &header, &lsa.body)
}
