//! The addresses of links and destinations, and the numbers that stand behind them.
use words::Address;

// Link n is 10.0.0.0 and 4 n more, /30.
const FIRST_LINK: u32 = 0x0a00_0000;

// The links' addresses are below 11.0.0.0.
const LINK_ADDRESSES: u32 = 0x0100_0000;

// Destination n is 20.0.0.0 and 256 n more, /24.
const FIRST_DESTINATION: u32 = 0x1400_0000;

/// The address of a host of the link of this number.
pub fn on_link(number: u32, host: u32) -> Address {
    let offset = number.wrapping_mul(4).wrapping_add(host);
    Address::new(FIRST_LINK.wrapping_add(offset))
}

/// The first address of the destination of this number.
pub fn of_destination(number: u32) -> Address {
    Address::new(FIRST_DESTINATION.wrapping_add(number.wrapping_mul(256)))
}

/// The number of the prefix at this address. The prefixes of the links come first, in the order of
/// the links, and then those of the destinations.
pub fn number_at(address: Address, links: usize) -> usize {
    let bits = address.bits();
    let offset = bits.wrapping_sub(FIRST_LINK);
    if offset < LINK_ADDRESSES {
        (offset / 4) as usize
    } else {
        links.wrapping_add((bits.wrapping_sub(FIRST_DESTINATION) / 256) as usize)
    }
}
