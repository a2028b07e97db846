// Readers of published orders.

/// The order that it was told last, the greatest one that it learnt or pinned, and the one that it pinned last.
#[derive(Clone, Copy)]
pub(crate) struct Reader {
    pub told: u32,
    pub seen: u32,
    pub pinned: Option<u32>,
}
