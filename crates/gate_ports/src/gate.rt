//! What a session calls as it takes up an order.

/// What a session calls before each of its orders, as a test that holds two sessions until they have
/// met. It is shared by all sessions, and nothing is asked of it.
pub trait Gate: Sync {
    /// Session and order are counted from 0. The order is about to be taken up: none of its fields was
    /// read yet.
    fn before(&self, session: u32, order: u32);
}

/// A gate that does nothing.
pub struct OpenGate;

impl Gate for OpenGate {
    fn before(&self, _session: u32, _order: u32) {}
}
