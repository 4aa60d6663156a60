//! The limits of names, pages, sets, links, values and sessions, each stated once: clauses and code ask here.

/// The longest name of a page, in bytes.
pub const LONGEST_NAME: usize = 4_096;

/// The most pages of a set.
pub const MOST_PAGES: usize = 64;

/// The most bytes that the pages of a set have together.
pub const MOST_BYTES: u64 = 268_435_456;

/// The most bytes `<` that the pages of a set have together.
pub const MOST_TAGS: u64 = 8_388_608;

/// How deep the elements of a page stand at most. The root is 1 deep.
pub const DEEPEST_ELEMENT: u32 = 256;

/// How deep tuples stand within tuples at most.
pub const DEEPEST_TUPLE: u32 = 100;

/// The longest base, and the longest text of a link that is resolved, in bytes.
pub const LONGEST_LINK: usize = 65_536;

/// The most bytes that all pages that a session puts have together, replaced and dropped ones included.
pub const MOST_BYTES_PUT: u64 = 134_217_728;

/// The most bytes `<` that they have together.
pub const MOST_TAGS_PUT: u64 = 4_194_304;

/// The longest script of a session, in bytes.
pub const LONGEST_SCRIPT: usize = 65_536;

/// How many bytes of a page are read or taken in one go at most.
pub const PIECE: usize = 65_536;

/// The largest scale of a number. The least is its negative.
pub const LARGEST_SCALE: u32 = 100;

/// The most facts of a sample.
pub const MOST_FACTS: u32 = 200_000;
