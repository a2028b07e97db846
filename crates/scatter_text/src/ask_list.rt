// The asks of a text so far, and where `settle` stands among them.
ghost use Rattle.std.specs.Prelude.{◌≡◌, ◌≢◌, ◌≤◌, [], ◌∷◌, ◌++◌, length, Some, None, IfOk};
ghost use Rattle.std.specs.Option.{ForSome};

use crate::file::AskRow;
use std::alloc::{AllocError, Global};

/// The asks so far, and how many of them stand before `settle`.
#[derive(Drop)]
pub struct AskList {
    pub asks: Vec<AskRow>,
    pub settle: Option<usize>,
    pub ghost settled: { ForSome settle (λ n. n ≤ length asks.items) },
}

/// The same where an ask or `settle` stands.
#[derive(Drop)]
pub struct OpenAsks {
    pub list: AskList,
    pub ghost some: { list.settle ≡ None → list.asks.items ≢ [] },
}

impl AskList {
    /// No ask.
    pub fn new(alloc: Global) -> AskList
        ensures asks { result.asks.items ≡ [] }
        ensures settle { result.settle ≡ None }
    {
        AskList {
            asks: Vec::new(alloc),
            settle: None,
        }
    }

    /// The asks with one more at the end.
    pub fn with_ask(self, ask: AskRow) -> Result<OpenAsks, AllocError>
        ensures asks { IfOk result (λ more. more.list.asks.items ≡ self.asks.items ++ ask ∷ []) }
        ensures settle { IfOk result (λ more. more.list.settle ≡ self.settle) }
    {
        let AskList { mut asks, settle } = self;
        asks.push(ask)?;
        let list = AskList { asks, settle };
        Ok(OpenAsks { list })
    }

    /// The asks with `settle` after them.
    pub fn with_settle(self) -> OpenAsks
        ensures asks { result.list.asks.items ≡ self.asks.items }
        ensures settle { result.list.settle ≡ Some (length self.asks.items) }
    {
        let AskList { asks, .. } = self;
        let settle = Some(asks.len());
        let list = AskList { asks, settle };
        OpenAsks { list }
    }
}
