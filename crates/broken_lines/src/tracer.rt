// Tails, one after another.

ghost use Rattle.std.specs.Prelude.{◌≡◌, ◌+◌, ◌≤◌, IfOk, OnOk, IfErr, [], ◌∷◌, length, false, None, option_map};
ghost use Rattle.limits.specs.Limits.{highest_order, largest_weight, most_tails};
ghost use Rattle.plane_geom.specs.Shown.{point_of};
ghost use Rattle.bend_finder.specs.Ahead.{bend_of, bends_of};
ghost use Rattle.broken_lines.specs.Growth.{IsSummable, AreSummable};
ghost use Rattle.broken_lines.specs.declared.fault.AskFault.TheVariants.{Memory};
ghost use Rattle.broken_lines.specs.Tracing.{seen_node, seen_tracing, pushed, children, roots, lesser_point, noted, with_ended, IsPastMost, AreSummableBends, IsFollowed, IsFollowFault, IsAskReady, IsFollowable, AreTraced, AreTooManyTails, nothing_traced, IsLastFault};

use crate::fault::AskFault;
use crate::growth::sum;
use crate::node::{Ask, Node, difference};
use crate::tail::{Tail, Traced};
use bend_finder::{Ahead, Bend, BendFinder};
use limits::{LARGEST_WEIGHT, MOST_TAILS};
use plane_geom::Point;
use std::alloc::Global;
use std::cmp::Ordering;
use trunc_series::Exp;

/// The tails that were followed, those that still have to be, and what all that were followed met.
#[derive(Drop)]
pub(crate) struct Tracing {
    pub(crate) tails: Vec<Tail>,
    /// Those that still have to be followed, the next one last.
    pub(crate) pending: Vec<Node>,
    /// How many tails were found.
    pub(crate) found: usize,
    /// The sum of their weights, or a number above 2^126 where it is above that.
    pub(crate) weight: u128,
    /// Whether one crosses a live wall too far away.
    pub(crate) far: bool,
    /// The least special point, where no crossing is too far away.
    pub(crate) special: Option<Point>,
}

/// The lesser of two points, where there are two.
fn lesser(p: Option<Point>, q: Option<Point>) -> Option<Point>
    ensures { option_map point_of result
        ≡ lesser_point (option_map point_of p) (option_map point_of q) }
{
    match (p, q) {
        (None, other) => other,
        (one, None) => one,
        (Some(a), Some(b)) => {
            if b.compare(&a) == Ordering::Less {
                Some(b)
            } else {
                Some(a)
            }
        }
    }
}

impl Tracing {
    pub(crate) fn new(alloc: Global) -> Tracing
        ensures { seen_tracing result ≡ nothing_traced }
    {
        Tracing {
            tails: Vec::new(alloc),
            pending: Vec::new(alloc),
            found: 0,
            weight: 0,
            far: false,
            special: None,
        }
    }

    /// Adds a tail that has to be followed next.
    fn push(&mut self, node: Node) -> Result<(), AskFault>
        ensures pushed { OnOk result
            (seen_tracing self.new ≡ pushed (seen_node node ∷ []) (seen_tracing self.old)) }
        ensures few { OnOk result (self.new.found ≤ most_tails) }
        ensures fault { IfErr result (IsPastMost (self.old.found + 1)) }
    {
        if self.found >= MOST_TAILS {
            return Err(AskFault::TooManyTails);
        }
        self.pending.push(node)?;
        self.found += 1;
        Ok(())
    }

    /// Adds the tail without bends for an exponent that is reached, unless its own exponent is (0, 0).
    fn push_root(&mut self, alloc: Global, ask: &Ask, reached: Exp) -> Result<(), AskFault>
        requires asked { IsSummable ask.now.m }
        requires reached { IsSummable reached }
        ensures pushed { OnOk result (seen_tracing self.new ≡
            pushed (roots ask.now (reached ∷ [])) (seen_tracing self.old)) }
        ensures few { OnOk result (self.old.found ≤ most_tails → self.new.found ≤ most_tails) }
        ensures fault { IfErr result (IsPastMost (self.old.found + length (roots ask.now (reached ∷ [])))) }
    {
        let x = sum(ask.m, reached);
        if x.a != 0 || x.b != 0 {
            self.push(Node::root(alloc, x, ask.at))?;
        }
        Ok(())
    }

    /// Adds the tails without bends for the exponents that are reached.
    pub(crate) fn push_roots(
        &mut self,
        alloc: Global,
        ask: &Ask,
        reached: &[Exp],
    ) -> Result<(), AskFault>
        requires asked { IsSummable ask.now.m }
        requires reached { AreSummable reached.now }
        ensures pushed { OnOk result (seen_tracing self.new ≡
            pushed (roots ask.now reached.now) (seen_tracing self.old)) }
        ensures few { OnOk result (self.old.found ≤ most_tails → self.new.found ≤ most_tails) }
        ensures fault { IfErr result (IsPastMost (self.old.found + length (roots ask.now reached.now))) }
    {
        let count = reached.len();
        for i in 0..count {
            self.push_root(alloc, ask, reached[count - 1 - i])?;
        }
        Ok(())
    }

    /// Adds a tail with one more bend, if that is in reach.
    fn push_child(
        &mut self,
        alloc: Global,
        ask: &Ask,
        node: &Node,
        bend: &Bend,
        weight: u128,
    ) -> Result<(), AskFault>
        requires asked { IsSummable ask.now.m }
        requires used { node.now.tail.used ≤ highest_order }
        requires last { IsSummable node.now.tail.last }
        requires near { IsSummable bend.now.key.exp }
        ensures pushed { OnOk result (seen_tracing self.new ≡ pushed
            (children ask.now (seen_node node.now) ((bend_of bend.now, weight) ∷ []))
            (seen_tracing self.old)) }
        ensures few { OnOk result (self.old.found ≤ most_tails → self.new.found ≤ most_tails) }
        ensures fault { IfErr result (IsPastMost (self.old.found +
            length (children ask.now (seen_node node.now) ((bend_of bend.now, weight) ∷ [])))) }
    {
        let left = difference(node.tail.last, bend.key.exp);
        if ask.is_within(left, node.tail.used + bend.key.degree()) {
            let child = node.child(alloc, bend, weight)?;
            self.push(child)?;
        }
        Ok(())
    }

    /// Adds the tails with one more bend that are in reach.
    fn push_children(
        &mut self,
        alloc: Global,
        ask: &Ask,
        node: &Node,
        bends: &[(Bend, u128)],
    ) -> Result<(), AskFault>
        requires asked { IsSummable ask.now.m }
        requires used { node.now.tail.used ≤ highest_order }
        requires last { IsSummable node.now.tail.last }
        requires near { AreSummableBends bends.now }
        ensures pushed { OnOk result (seen_tracing self.new ≡
            pushed (children ask.now (seen_node node.now) (bends_of bends.now)) (seen_tracing self.old)) }
        ensures few { OnOk result (self.old.found ≤ most_tails → self.new.found ≤ most_tails) }
        ensures fault { IfErr result (IsPastMost (self.old.found +
            length (children ask.now (seen_node node.now) (bends_of bends.now)))) }
    {
        let count = bends.len();
        for i in 0..count {
            let c = &bends[count - 1 - i];
            self.push_child(alloc, ask, node, &c.0, c.1)?;
        }
        Ok(())
    }

    /// Notes what a tail finds ahead.
    fn note(&mut self, ahead: &Ahead)
        ensures { seen_tracing self.new ≡ noted ahead.now (seen_tracing self.old) }
    {
        self.far = self.far || ahead.far;
        self.special = lesser(self.special, ahead.special);
    }

    /// Adds a tail that was followed.
    fn end(&mut self, node: Node) -> Result<(), AskFault>
        ensures ended { OnOk result
            (seen_tracing self.new ≡ with_ended (seen_node node) (seen_tracing self.old)) }
        ensures fault { IfErr result (λ f. f ≡ Memory) }
    {
        self.weight = self.weight.saturating_add(node.weight);
        self.tails.push(node.tail)?;
        Ok(())
    }

    /// Adds a tail and what it finds ahead: the tails with one more bend have to be followed next.
    fn follow(
        &mut self,
        alloc: Global,
        ask: &Ask,
        finder: &mut BendFinder<'_>,
        node: Node,
    ) -> Result<(), AskFault>
        requires ready { IsAskReady finder.old.walls ask.now }
        requires limit { finder.old.limit ≡ ask.now.limit }
        requires node { IsFollowable ask.now (seen_node node) }
        ensures same { finder.new ≡ finder.old }
        ensures follows { OnOk result (IsFollowed finder.old.walls ask.now (seen_node node)
            (seen_tracing self.old) (seen_tracing self.new)) }
        ensures few { OnOk result (self.old.found ≤ most_tails → self.new.found ≤ most_tails) }
        ensures fault { IfErr result (IsFollowFault finder.old.walls ask.now (seen_node node)
            (seen_tracing self.old)) }
    {
        let ahead = finder.ahead(&node.at, node.tail.last, ask.limit - node.tail.used)?;
        self.note(&ahead);
        self.push_children(alloc, ask, &node, ahead.bends.as_slice())?;
        self.end(node)
    }

    /// Follows all tails.
    pub(crate) fn run(
        &mut self,
        alloc: Global,
        ask: &Ask,
        finder: &mut BendFinder<'_>,
    ) -> Result<(), AskFault>
        requires ready { IsAskReady finder.old.walls ask.now }
        requires limit { finder.old.limit ≡ ask.now.limit }
        requires few { self.old.found ≤ most_tails }
        requires traces { AreTraced finder.old.walls ask.now (seen_tracing self.old) }
        ensures same { finder.new ≡ finder.old }
        ensures traces { OnOk result (AreTraced finder.old.walls ask.now (seen_tracing self.new)) }
        ensures few { OnOk result (self.new.found ≤ most_tails) }
        ensures done { OnOk result (self.new.pending.items ≡ []) }
        ensures fault { IfErr result (AreTooManyTails finder.old.walls ask.now) }
    {
        while let Some(node) = self.pending.pop() {
            self.follow(alloc, ask, finder, node)?;
        }
        Ok(())
    }

    /// The tails, if what they met allows it.
    pub(crate) fn verdict(self) -> Result<Traced, AskFault>
        ensures tails { IfOk result (λ t. t.tails ≡ self.tails) }
        ensures weight { IfOk result (λ t. (t.weight ≡ self.weight) × (self.weight ≤ largest_weight)) }
        ensures free { IfOk result (λ t. (self.far ≡ false) × (self.special ≡ None)) }
        ensures fault { IfErr result (IsLastFault self) }
    {
        if self.far {
            return Err(AskFault::PointTooLarge);
        }
        if self.weight > LARGEST_WEIGHT {
            return Err(AskFault::WeightTooLarge);
        }
        if let Some(at) = self.special {
            return Err(AskFault::NotGeneric { at });
        }
        Ok(Traced {
            tails: self.tails,
            weight: self.weight,
        })
    }
}
