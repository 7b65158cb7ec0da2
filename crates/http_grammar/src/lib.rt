//! What stands at the front of the bytes of a connection: definitions on whole texts, and the laws that make them one answer.
//! There is no reader here; the definitions know of no reads, buffers or cuts. Readers share the few functions on texts.
#![tactic(auto)]

mod fault;
mod framing;
mod laws;
mod slices;

pub use fault::HttpFault;
pub use framing::Framing;
pub use laws::{
    chunked_body_is_one, fault_holds_its_head, first_is_kept, first_is_never_cut, first_is_one,
    held_head_has_bytes, held_head_is_kept, held_head_is_one, request_lies_within,
    waiting_head_is_held, whole_request_holds_its_head,
};
pub use slices::{behind, front, same_word};
