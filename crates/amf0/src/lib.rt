// AMF0 values: read, found and written. The readers take `(s, at)`, a slice and a number, since document 01 asks for a "slice-and-number core"
// under the reader that carries a body and its position.
#![tactic(auto)]

mod kinds;
mod marker;
mod names;
mod properties;
mod read;
mod write;

pub use kinds::{Kind, kind_at};
pub use properties::{Property, find, properties_at, property_at, text_at, text_property};
pub use read::{Malformed, count_values, skip};
pub use write::{
    put_boolean, put_name, put_null, put_number, put_object_end, put_object_start, put_text,
};
