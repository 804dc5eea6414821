//! Descriptions of IDL types (CORBA 3.3 Part 2, 9.3), and their check.
pub mod check;
pub mod checked_desc;
pub mod desc;
pub mod desc_fault;
pub mod label_check;
pub mod name_check;
pub mod named;
pub mod taken_apart;
