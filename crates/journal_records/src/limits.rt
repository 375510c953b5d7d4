//! How large a record and its texts may be.

/// Octets of an address text, and of a password.
pub const TEXT_MAX: usize = 65_536;

/// Octets of a folder name.
pub const NAME_MAX: usize = 255;

/// Octets of a record after its length.
pub const RECORD_MAX: usize = 67_108_864;
