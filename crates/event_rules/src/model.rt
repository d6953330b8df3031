//! A router's configuration, what it sends, and its refusals.
ghost use Rattle.std.specs.Prelude.{◌≡◌, IfOk};
ghost use Rattle.event_rules.specs.Numbers.{config_error_number, core_error_number, core_error_of};

use packet::{PacketError, PacketFault};
use received::Interface;
use std::alloc::{AllocError, AllocFailed};
use thiserror::Error;
use words::{RouterId, Second, Sequence};

/// The configuration of a router (RFC 2328, appendix C).
///
/// It is valid if the Router ID isn't 0.0.0.0, the start is below 2^62 seconds, there are 1 to 63
/// interfaces, no two have the same address, and each interface's numbers are in the ranges that
/// [`Interface`] gives.
#[derive(Drop)]
pub struct Config {
    /// The router's own Router ID.
    pub router: RouterId,
    /// The moment of the start; events come at that moment or later.
    pub start: Second,
    /// Interface n at index n - 1.
    pub interfaces: Sequence<Interface>,
}

impl Config {
    /// A copy of the configuration.
    ///
    /// # Errors
    /// `AllocError` if an allocation is refused.
    pub fn copy(&self) -> Result<Config, AllocError>
        ensures { IfOk result (λ copy. copy ≡ self.now) }
    {
        let interfaces = self.interfaces.copy()?;
        Ok(Config {
            router: self.router,
            start: self.start,
            interfaces,
        })
    }
}

/// A packet to be sent.
#[derive(Drop)]
pub struct Out {
    /// The number of the interface that it is sent at, from 1 to 63.
    pub interface: u16,
    /// The bytes of an OSPF packet, at most 8,192, without an IP header.
    pub bytes: Sequence<u8>,
}

/// Why `Core::new` refused to make a router.
#[derive(Clone, Copy, Debug, PartialEq, Eq, Error)]
pub enum ConfigError {
    /// The configuration isn't valid by the rules of [`Config`]: its Router ID, its interfaces or
    /// its start.
    #[error("the configuration is outside what this router supports")]
    Interface,
    /// An allocation was refused; nothing is wrong with the configuration.
    #[error("out of memory")]
    Memory,
}

impl ConfigError {
    /// The number of the refusal: 1 for `Interface`, 2 for `Memory`.
    pub fn number(self) -> u8
        ensures { result ≡ config_error_number self }
    {
        match self {
            ConfigError::Interface => 1,
            ConfigError::Memory => 2,
        }
    }
}

impl From<AllocError> for ConfigError {
    ghost use Rattle.event_rules.specs.declared.model.ConfigError.TheVariants.{Memory};

    ghost from_gives = { λ _ e. e ≡ Memory };

    fn from(_e: AllocError) -> ConfigError {
        ConfigError::Memory
    }
}

impl<T: Drop> From<AllocFailed<T>> for ConfigError {
    ghost use Rattle.event_rules.specs.declared.model.ConfigError.TheVariants.{Memory};

    ghost from_gives = { λ _ e. e ≡ Memory };

    fn from(_e: AllocFailed<T>) -> ConfigError {
        ConfigError::Memory
    }
}

/// Why `Core::step` refused an event, which then changed nothing.
#[derive(Clone, Copy, Debug, PartialEq, Eq, Error)]
pub enum CoreError {
    /// The bytes encode no packet, because of this fault.
    #[error("{0}")]
    BadPacket(PacketFault),
    /// There is no interface with this number.
    #[error("there is no such interface")]
    NoInterface,
    /// The Link State ID is that of another announced prefix, or two answers are for different
    /// destinations.
    #[error("the destination clashes with another one")]
    Clash,
    /// The moment is earlier than that of the last event, or 2^62 or more.
    #[error("the clock went back")]
    ClockBack,
    /// The database would exceed one of its limits.
    #[error("the database is full")]
    Full,
    /// An allocation was refused. Neither the moment nor the interface is wrong; whether the event
    /// would be refused for something else isn't said.
    #[error("out of memory")]
    Memory,
}

impl CoreError {
    /// The number of the refusal: 1 for `BadPacket`, 2 for `NoInterface`, 3 for `Clash`, 4 for
    /// `ClockBack`, 5 for `Full`, 6 for `Memory`.
    pub fn number(self) -> u8
        ensures { result ≡ core_error_number self }
    {
        match self {
            CoreError::BadPacket(_) => 1,
            CoreError::NoInterface => 2,
            CoreError::Clash => 3,
            CoreError::ClockBack => 4,
            CoreError::Full => 5,
            CoreError::Memory => 6,
        }
    }
}

impl From<AllocError> for CoreError {
    ghost use Rattle.event_rules.specs.declared.model.CoreError.TheVariants.{Memory};

    ghost from_gives = { λ _ e. e ≡ Memory };

    fn from(_e: AllocError) -> CoreError {
        CoreError::Memory
    }
}

impl<T: Drop> From<AllocFailed<T>> for CoreError {
    ghost use Rattle.event_rules.specs.declared.model.CoreError.TheVariants.{Memory};

    ghost from_gives = { λ _ e. e ≡ Memory };

    fn from(_e: AllocFailed<T>) -> CoreError {
        CoreError::Memory
    }
}

impl From<PacketError> for CoreError {
    ghost from_gives = { λ r e. e ≡ core_error_of r };

    fn from(e: PacketError) -> CoreError {
        match e {
            PacketError::Fault(fault) => CoreError::BadPacket(fault),
            PacketError::Memory => CoreError::Memory,
        }
    }
}
