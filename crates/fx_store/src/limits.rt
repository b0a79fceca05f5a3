//! The limits of what a filestore holds. Contracts cite them by these names.

/// The most bytes of a name.
pub const MAX_NAME_BYTES: usize = 255;

/// The most names of a path.
pub const MAX_PATH_NAMES: usize = 64;

/// The most bytes of a file.
pub const MAX_FILE_BYTES: usize = 1_048_576;

/// The most bytes of a link text.
pub const MAX_LINK_BYTES: usize = 4_096;

/// The most components of a link text.
pub const MAX_LINK_COMPONENTS: usize = 64;
