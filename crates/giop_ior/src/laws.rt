//! Laws of the definitions that contracts cite. Each function's contract is one of them; the bodies
//! are empty, and no program calls them. A definition that changes must still satisfy them.
mod addresses;
mod ior_texts;
mod references;

pub use addresses::{
    corbalocs_are_read, corbalocs_are_refused, faults_are_the_first, faulty_texts_are_no_corbalocs,
    kinds_are_numbered, written_corbalocs_are_read_back,
};
pub use ior_texts::{reference_texts_are_read, written_reference_texts_are_read_back};
pub use references::{
    addresses_are_profiles, profiles_are_read, references_are_spelled,
    written_references_are_read_back,
};
