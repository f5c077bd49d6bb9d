//! The limits of documents, sessions and certificates.

/// The greatest number of states of an environment, a behaviour or a target.
pub const MAX_STATES: u8 = 64;

/// The greatest number of actions.
pub const MAX_ACTIONS: u8 = 32;

/// The greatest number of transitions of one part of a document.
pub const MAX_STEPS: u32 = 16_384;

/// The greatest number of behaviours in a catalogue.
pub const MAX_BEHAVIOURS: u8 = 32;

/// The greatest number of services in a system.
pub const MAX_SERVICES: u8 = 32;

/// The number of places of a table with one for each service.
pub const PLACES: usize = MAX_SERVICES as usize;

/// The greatest limit on cells, which are pairs times actions, that a document may set.
pub const MAX_CELLS: u32 = 16_777_216;

/// The limit on cells of a document that sets none.
pub const DEFAULT_CELLS: u32 = 262_144;

/// The greatest number of bytes of a document or part file.
pub const MAX_DOCUMENT_BYTES: u64 = 1_048_576;

/// The greatest number of bytes of a name.
pub const MAX_NAME_BYTES: u8 = 32;

/// The greatest number of bytes of the name of a part file.
pub const MAX_FILE_NAME_BYTES: u8 = 255;

/// The greatest number of bytes of a session line, without its newline.
pub const MAX_LINE_BYTES: u32 = 256;

/// The number of bytes that each fetch from a shelf and each take from a source requests, and the
/// greatest number of bytes that a page gathers before it writes them.
pub const PIECE_BYTES: usize = 4_096;

/// The greatest number of bytes of a session.
pub const MAX_SESSION_BYTES: u64 = 16_777_216;

/// The greatest number of bytes of a certificate.
pub const MAX_CERTIFICATE_BYTES: u64 = 268_435_456;
