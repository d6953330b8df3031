//! Routers as they begin, what is read off one, and what two of them have in common.
use crate::addresses::on_link;
use crate::fault::NetworkError;
use crate::topology::FarEnd;
use flood::{Config, Core, Interface, NeighborState};
use lsa::Header;
use std::alloc::Global;
use words::{Address, Hops, Key, RouterId, Second, Sequence};

/// The times of all interfaces, in seconds.
#[derive(Clone, Copy)]
pub struct InterfaceTimes {
    pub hello: u16,
    pub dead: u32,
    pub retransmit: u16,
}

// The Router ID of the router at a place: 0.0.0.1 and so on.
fn router_at(place: usize) -> RouterId {
    RouterId::new(u32::try_from(place.wrapping_add(1)).unwrap_or(1))
}

// The end of a link at the router with the lower place has its first address.
fn address(end: &FarEnd, place: usize) -> Address {
    let number = u32::try_from(end.link).unwrap_or(0);
    let host = if place < end.place { 1 } else { 2 };
    on_link(number, host)
}

fn interface(end: &FarEnd, place: usize, times: InterfaceTimes) -> Interface {
    Interface {
        address: address(end, place),
        length: 30,
        cost: end.cost,
        hello_interval: times.hello,
        dead_interval: times.dead,
        retransmit_interval: times.retransmit,
        delay: 1,
    }
}

// Whether memory was enough.
fn add_interfaces(
    list: &mut Vec<Interface>,
    ends: &[FarEnd],
    place: usize,
    times: InterfaceTimes,
) -> bool {
    let mut fits = true;
    for end in ends {
        fits = list.push(interface(end, place, times)).is_ok() && fits;
    }
    fits
}

fn configured(alloc: Global, config: &Config) -> Result<Core, NetworkError> {
    match Core::new(alloc, config) {
        Ok(core) => Ok(core),
        Err(error) => Err(NetworkError::from(error)),
    }
}

/// The router at a place as it begins at this moment.
///
/// # Errors
/// `Memory` if an allocation is refused, `Configuration` if the times aren't allowed.
pub fn begun(
    alloc: Global,
    ends: &[FarEnd],
    place: usize,
    times: InterfaceTimes,
    moment: u64,
) -> Result<Core, NetworkError> {
    let mut interfaces = Vec::new(alloc);
    let fits = add_interfaces(&mut interfaces, ends, place, times);
    let config = Config {
        router: router_at(place),
        start: Second::new(moment),
        interfaces: Sequence::from_vec(interfaces),
    };
    if fits {
        configured(alloc, &config)
    } else {
        Err(NetworkError::Memory)
    }
}

/// Whether the router's neighbor at the interface is Full.
pub fn sees_full(core: &Core, interface: u8) -> bool {
    match core.neighbor(u16::from(interface)) {
        Some((_, NeighborState::Full)) => true,
        _ => false,
    }
}

/// The interfaces of the router with a Full neighbor.
pub fn fulls_of(core: &Core) -> Hops {
    let count = core.interface_count();
    let mut full = Hops::NONE;
    for interface in 1..64_u8 {
        if usize::from(interface) <= count && sees_full(core, interface) {
            full = full.join(Hops::only(interface));
        }
    }
    full
}

fn are_instances_of_one(a: &Header, b: &Header) -> bool {
    a.sequence == b.sequence && a.checksum == b.checksum && a.length == b.length
}

fn both_hold(one: &Core, other: &Core, key: &Key) -> bool {
    match (one.database().get(key), other.database().get(key)) {
        (Some(a), Some(b)) => are_instances_of_one(&a.lsa.header(), &b.lsa.header()),
        _ => false,
    }
}

/// Whether both hold LSAs of the same keys with the same lengths, sequence numbers and checksums.
pub fn holds_the_same(one: &Core, other: &Core) -> bool {
    let mut same = one.database().len() == other.database().len();
    for key in one.database().keys() {
        same = same && both_hold(one, other, &key);
    }
    same
}

fn mixed(hash: u64, word: u64) -> u64 {
    hash.wrapping_add(word).wrapping_mul(0x9e37_79b9_7f4a_7c15)
}

fn mixed_with(hash: u64, header: &Header) -> u64 {
    let of_type = mixed(hash, u64::from(header.ls_type));
    let of_id = mixed(of_type, u64::from(header.link_state_id.number()));
    let of_key = mixed(of_id, u64::from(header.advertising_router.number()));
    let of_sequence = mixed(of_key, u64::from(header.sequence.bits()));
    mixed(of_sequence, u64::from(header.checksum))
}

/// A hash of the instances that the router holds below MaxAge.
pub fn print_of(core: &Core) -> u64 {
    let mut hash = 1_u64;
    for key in core.database().keys() {
        if let Some(copy) = core.database().get(&key) {
            if !copy.is_aged_out(core.moment()) {
                hash = mixed_with(hash, &copy.lsa.header());
            }
        }
    }
    hash
}
