//! Object references (CORBA 3.3 Part 2, 7.6.2) and their texts (7.6.9), IIOP profiles (9.7.2), and
//! service contexts (7.7).
pub mod iiop_reading;
pub mod iiop_writing;
pub mod ior;
pub mod ior_reading;
pub mod ior_text;
pub mod ior_writing;
pub mod profile;
pub mod sequence;
pub mod service_context;
pub mod tagged_profile;
