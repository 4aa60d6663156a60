//! What is due of a row.
use std::fmt;

/// What the reader is to answer.
#[derive(Clone, Copy)]
pub enum Due {
    /// The content of which the bytes are the canonical text; prepared again, it gives the same bytes.
    ReadBack,
    /// That they are the canonical text of no proper content.
    NotCanonical,
}

impl Due {
    /// What is due of the rows in a folder.
    pub(crate) fn of_folder(folder: &str) -> Option<Due> {
        match folder {
            "read_back" => Some(Due::ReadBack),
            "not_canonical" => Some(Due::NotCanonical),
            _ => None,
        }
    }
}

impl fmt::Display for Due {
    fn fmt<W: fmt::Write>(&self, f: &mut fmt::Formatter<W>) -> fmt::Result {
        match self {
            Due::ReadBack => write!(f, "read back"),
            Due::NotCanonical => write!(f, "not canonical"),
        }
    }
}
