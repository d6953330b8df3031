//! The times of a copy.
use words::Second;

/// What may change for a copy while its LSA stays the same.
#[derive(Clone, Copy)]
pub struct CopyTimes {
    /// Its age at the moment `stored`, in seconds, at most 3600.
    pub age: u16,
    /// When it had this age: when it was installed, or was aged prematurely.
    pub stored: Second,
    /// When it was received by flooding, for MinLSArrival; `None` if this router originated it.
    pub received: Option<Second>,
    /// When it was last sent in a Link State Update, if it was.
    pub sent: Option<Second>,
}
