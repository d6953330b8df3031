//! Constants of OSPF with their names in RFC 2328, and the length of the largest packet.

/// MaxAge: at this age an LSA is no longer used, in seconds (RFC 2328, appendix B).
pub const MAX_AGE: u16 = 3600;

/// MinLSInterval: the least time between two originations of one LSA, in seconds (RFC 2328,
/// appendix B).
pub const MIN_LS_INTERVAL: u64 = 5;

/// LSInfinity: a destination with this metric is unreachable, and one with this metric or more is
/// not advertised (RFC 2328, appendix B).
pub const LS_INFINITY: u32 = 0xff_ffff;

/// The greatest length of a packet in bytes, and the MTU of Database Descriptions (own limit).
pub const LARGEST_PACKET: u16 = 8192;

/// The E-bit of Options: AS-external-LSAs are flooded into the area (RFC 2328, section A.2).
pub const E_BIT: u8 = 2;
