//! The file: a header, and records.
ghost use Rattle.std.specs.Prelude.{◌≡◌, ◌≤◌, ◌↔◌, length, IfErr, IfOk, IsTrue, MatchOption};
ghost use Rattle.hooktool_trials.specs.Captures.{AreRecords, IsCapture, IsCutAt, IsHeader};
ghost use Rattle.hooktool_trials.specs.Captures.{IsRecordAt};
ghost use Rattle.hooktool_trials.specs.Captures.{Refuses};
ghost use Rattle.hooktool_trials.specs.declared.captures.number.Order.{Order};

use crate::captures::fault::CaptureError;
use crate::captures::frame::{LinkType, link_of};
use crate::captures::number::{Order, half, word};
use std::alloc::Global;

/// A frame, and the second in which it was captured, since 1970.
#[derive(Clone, Copy)]
pub struct Record<'a> {
    pub seconds: u32,
    pub frame: &'a [u8],
}

/// What frames begin with, and the frames in their order.
#[derive(Drop)]
pub struct Capture<'a> {
    pub link: LinkType,
    pub records: Vec<Record<'a>>,
}

/// Whether a header is there, in this order of bytes.
fn is_header(order: Order, bytes: &[u8]) -> bool
    ensures { IsTrue result ↔ IsHeader order bytes.now }
{
    if bytes.len() < 24 {
        return false;
    }
    let magic = word(order, bytes, 0);
    (magic == 0xa1b2_c3d4 || magic == 0xa1b2_3c4d) && half(order, bytes, 4) == 2
}

/// The order of bytes in which a header is there.
fn order_of(bytes: &[u8]) -> Option<Order>
    ensures { MatchOption result ((order : Order) → IsHeader order bytes.now → ⊥)
        (λ order. IsHeader order bytes.now) }
{
    if is_header(Order::Little, bytes) {
        return Some(Order::Little);
    }
    if is_header(Order::Big, bytes) {
        return Some(Order::Big);
    }
    None
}

/// The record that begins at a place, if it lies in the file.
fn record_at(order: Order, bytes: &[u8], at: usize) -> Option<Record<'_>>
    requires { at ≤ length bytes.now }
    ensures { MatchOption result (IsCutAt order bytes.now at) (IsRecordAt order bytes.now at) }
{
    let rest = bytes.len() - at;
    if rest < 16 {
        return None;
    }
    let captured = word(order, bytes, at + 8) as usize;
    if captured > rest - 16 {
        return None;
    }
    let start = at + 16;
    Some(Record {
        seconds: word(order, bytes, at),
        frame: &bytes[start..start + captured],
    })
}

/// All records behind the header.
fn records_of<'a>(
    alloc: Global,
    order: Order,
    bytes: &'a [u8],
) -> Result<Vec<Record<'a>>, CaptureError>
    requires { IsHeader order bytes.now }
    ensures found { IfOk result (λ records.
        AreRecords order bytes.now 24 records.items (length bytes.now)) }
    ensures why { IfErr result (Refuses bytes.now) }
{
    let mut records = Vec::new(alloc);
    let mut at = 24;
    while at < bytes.len() {
        let Some(record) = record_at(order, bytes, at) else {
            return Err(CaptureError::Short {
                record: records.len() + 1,
            });
        };
        records.push(record)?;
        at = at + 16 + record.frame.len();
    }
    Ok(records)
}

/// The capture that these bytes of a file are.
///
/// # Errors
/// `NotCapture` if they begin otherwise, `Link` if the link type isn't known, `Short` if they end
/// inside of a record, `Memory` if an allocation is refused.
pub fn read(alloc: Global, bytes: &[u8]) -> Result<Capture<'_>, CaptureError>
    ensures found { IfOk result (IsCapture bytes.now) }
    // The bytes have the fault that is returned.
    ensures why { IfErr result (Refuses bytes.now) }
{
    let Some(order) = order_of(bytes) else {
        return Err(CaptureError::NotCapture);
    };
    let number = word(order, bytes, 20);
    let Some(link) = link_of(number) else {
        return Err(CaptureError::Link { link: number });
    };
    match records_of(alloc, order, bytes) {
        Ok(records) => Ok(Capture { link, records }),
        Err(error) => Err(error),
    }
}
