// What is asked of a diagram, and what is answered.

ghost use Rattle.std.specs.Prelude.{◌≡◌, IfOk};
ghost use Rattle.theta_algebra.specs.Answers.{seen_reply, seen_answer};

use broken_lines::AskFault;
use plane_geom::Point;
use std::alloc::{AllocError, Global};
use trunc_series::{Exp, Series};

/// What is asked for at a point.
#[derive(Clone, Copy, Debug, PartialEq, Eq)]
pub enum QueryKind {
    /// The theta function of an exponent.
    Theta(Exp),
    /// The product of the theta functions of two exponents, as a family of theta functions.
    Product(Exp, Exp),
}

/// A question at a point, and the least order in which it may be answered, where one is told.
#[derive(Clone, Copy, Debug, PartialEq, Eq)]
pub struct Query {
    pub kind: QueryKind,
    pub at: Point,
    pub least: Option<u32>,
}

#[derive(Drop)]
pub enum Reply {
    Series(Series),
    /// The series at each exponent, sorted by the exponents.
    Family(Vec<(Exp, Series)>),
}

impl Reply {
    pub fn copy(&self, alloc: Global) -> Result<Reply, AllocError>
        ensures { IfOk result (λ r. seen_reply r ≡ seen_reply self.now) }
    {
        match self {
            Reply::Series(s) => Ok(Reply::Series(s.copy()?)),
            Reply::Family(ps) => Ok(Reply::Family(copied(alloc, ps.as_slice())?)),
        }
    }
}

/// The series at each exponent, copied.
fn copied(alloc: Global, family: &[(Exp, Series)]) -> Result<Vec<(Exp, Series)>, AllocError>
    ensures { IfOk result (λ v. v.items ≡ family.now) }
{
    let mut copy = Vec::with_capacity(alloc, family.len())?;
    for p in family {
        copy.push((p.0, p.1.copy()?))?;
    }
    Ok(copy)
}

/// What was answered, and in which order.
#[derive(Drop)]
pub struct Answer {
    pub order: u32,
    pub result: Result<Reply, AskFault>,
}

impl Answer {
    pub fn copy(&self, alloc: Global) -> Result<Answer, AllocError>
        ensures { IfOk result (λ a. seen_answer a ≡ seen_answer self.now) }
    {
        let result = match &self.result {
            Ok(reply) => Ok(reply.copy(alloc)?),
            Err(fault) => Err(*fault),
        };
        Ok(Answer {
            order: self.order,
            result,
        })
    }
}
