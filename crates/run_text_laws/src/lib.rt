//! The laws of JSON texts: the text of plain data is read back as that data, and an object has the fields that were
//! put into it, and no other. Each is a public function with an empty body, whose contract is a theorem over the
//! definitions of `serde_json` and the objects of `run_output`. Laws of single lines stand on these.
#![tactic(auto)]

mod laws;

pub use laws::{objects_have_fields, texts_are_read};
