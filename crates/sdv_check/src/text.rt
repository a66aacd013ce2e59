//! Reading the text of a certificate.

mod cursor;
mod fault;
mod items;
mod points;
mod reading;

pub use cursor::TextCursor;
pub use fault::CertFault;
pub use points::NamedPoints;
pub use reading::{lines, one_certificate, read};
