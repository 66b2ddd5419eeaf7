//! Orders of FIX 4.4: what is read of a sound frame, and the messages that a gate writes.
//!
//! Seven kinds of message are told apart by MsgType (35). Of five of them fields are read by a table:
//! each row says which tag is read in which kind and how, and its rows are tried in their order. The
//! first row with a reason is the fault of the message; without one, the message has the values.
//! Where a frame ends, what a field is and how numbers are spelled is told by `fix_fields`. What an
//! order may cost is not told here.
#![tactic(auto)]

mod envelope;
mod fault;
mod forward;
mod kind;
mod message;
mod order_reject;
mod put;
mod read;
mod reason;
mod reject;
mod side;
mod slots;
mod table;

pub use envelope::{Envelope, read_envelope};
pub use fix_fields::{Id, IdText, Spelling};
pub use forward::write_forward;
pub use kind::{Kind, kind_of};
pub use message::{
    Cancel, CancelReject, Exec, FieldFault, Head, Message, NewOrder, OrderKind, Replace, Report,
    Stamp,
};
pub use order_reject::write_reject_order;
pub use read::{read_message, type_text};
pub use reject::{write_reject_cancel, write_reject_session};
pub use side::Side;
