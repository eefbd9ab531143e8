ghost use Rattle.std.specs.Prelude.{◌≡◌, ◌-◌, ◌+◌, ◌^◌, ◌<◌, [], ◌∷◌, ◌++◌, length, slice_set};
ghost use Rattle.balance.specs.Ranges.{Between, AllBetween};
ghost use Rattle.roast.specs.Narrowing.{at, HasNode};

use balance::range::Range;
use std::marker::Model;

/// The ranges of at most 32 nodes, node 1 first, each in order and within ±2^30. They have a fixed size, so that no call on them allocates.
#[derive(Drop)]
pub struct Bounds {
    count: usize,
    ranges: [Range; 32],
}

// Clauses see the ranges of the nodes that are there.
impl Model for Bounds {
    ghost use Rattle.std.specs.Prelude.{List, ◌≡◌, ◌^◌, ◌≤◌, length, take};
    ghost use Rattle.balance.specs.declared.range.Range.{Range};
    ghost use Rattle.balance.specs.Ranges.{AllBetween};

    ghost Value = { List Range };

    ghost view = { λ b. take b.count b.ranges };

    ghost invariant = { λ b. (b.count ≤ 32) × (length b.ranges ≡ 32) × AllBetween (2 ^ 30) b.ranges };
}

// The bounds of no nodes.
impl Default for Bounds {
    ghost is_default = { λ b. b ≡ [] };

    fn default() -> Bounds {
        Bounds {
            count: 0,
            ranges: [Range::ZERO; 32],
        }
    }
}

impl Bounds {
    // No derive: a clone may fail by its contract, and a copy would have to give back what the view leaves out.
    pub(crate) fn copied(&self) -> Bounds
        ensures { result ≡ self.now }
    {
        Bounds {
            count: self.count,
            ranges: self.ranges,
        }
    }

    pub(crate) fn count(&self) -> usize
        ensures { result ≡ length self.now }
    {
        self.count
    }

    pub(crate) fn at(&self, node: usize) -> Range
        requires has_the_node { HasNode self.now node }
        ensures is { result ≡ at self.now node }
        ensures narrow { Between (2 ^ 30) result }
    {
        self.all()[node - 1]
    }

    // All ranges, node 1 first.
    pub(crate) fn all(&self) -> &[Range]
        ensures is { result.now ≡ self.now }
        ensures narrow { AllBetween (2 ^ 30) self.now }
    {
        &self.ranges[0..self.count]
    }

    pub(crate) fn put(&mut self, node: usize, range: Range)
        requires has_the_node { HasNode self.old node }
        requires narrow { Between (2 ^ 30) range }
        ensures { self.new ≡ slice_set self.old (node - 1) range }
    {
        let ranges = &mut self.ranges;
        ranges[node - 1] = range;
    }

    // One node more.
    pub(crate) fn push(&mut self, range: Range)
        requires room { length self.old < 32 }
        requires narrow { Between (2 ^ 30) range }
        ensures { self.new ≡ self.old ++ range ∷ [] }
    {
        self.ranges[self.count] = range;
        self.count += 1;
    }
}
