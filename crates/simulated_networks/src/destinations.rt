//! Destinations, as an operator has them announced while no program is attached.
use crate::addresses::of_destination;
use crate::fault::NetworkError;
use flood::Event;
use hooks::{Asker, HookError, programs};
use std::alloc::Global;
use std::sync::Wait;
use words::{External, ExternalType, Prefix, Second};

/// The destination of this number: 20.0.0.0/24 and so on.
pub fn prefix(number: u32) -> Option<Prefix> {
    Prefix::new(of_destination(number), 24)
}

fn destination(prefix: Prefix) -> External {
    External {
        prefix,
        metric: 20,
        kind: ExternalType::Type2,
        tag: 0,
    }
}

// The destination of this number is to be announced as it is configured.
fn announcement(asker: &mut Asker, number: u32) -> Option<Event> {
    let Some(prefix) = prefix(number) else {
        return None;
    };
    match asker.configured(&destination(prefix), Second::new(0)) {
        Some((tag, price)) => Some(Event::Redistribute(tag, price)),
        None => None,
    }
}

fn add(events: &mut Vec<Event>, event: Option<Event>) -> Result<(), NetworkError> {
    match event {
        Some(event) => Ok(events.push(event)?),
        None => Err(NetworkError::Destination),
    }
}

fn add_announcements(
    events: &mut Vec<Event>,
    asker: &mut Asker,
    count: u32,
) -> Result<(), NetworkError> {
    for number in 0..count {
        add(events, announcement(asker, number))?;
    }
    Ok(())
}

fn announced(alloc: Global, asker: &mut Asker, count: u32) -> Result<Vec<Event>, NetworkError> {
    let mut events = Vec::new(alloc);
    match add_announcements(&mut events, asker, count) {
        Ok(()) => Ok(events),
        Err(fault) => Err(fault),
    }
}

/// The announcements of `count` destinations while no program is attached, in the order of their
/// numbers.
///
/// # Errors
/// `Memory` if an allocation is refused.
pub fn announcements<R: Wait + Drop + Copy>(
    alloc: Global,
    rt: R,
    count: u32,
) -> Result<Vec<Event>, NetworkError> {
    // without the loader an asker answers nothing
    match programs(alloc, rt, 1) {
        Ok((_loader, mut askers)) => match askers.first_mut() {
            Some(asker) => announced(alloc, asker, count),
            None => Err(NetworkError::Destination),
        },
        Err(HookError::Memory) => Err(NetworkError::Memory),
        Err(_) => Err(NetworkError::Destination),
    }
}
