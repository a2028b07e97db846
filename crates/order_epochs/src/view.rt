// What a seat at the store knows.

use scatter_diagram::Initial;

/// The lines of the store, where `named`, and an order that was published. No value of it is made.
pub(crate) struct View {
    pub(crate) named: bool,
    pub(crate) lines: Initial,
    pub(crate) order: u32,
}
