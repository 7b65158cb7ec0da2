//! Numbers, each once, among which one is looked up.
ghost use Rattle.std.specs.Prelude.{◌≡◌, [], IfOk};
ghost use Rattle.cmis_spec.specs.Removal.{among, each_once};
ghost use Rattle.cm_removal.specs.Steps.{with_last};

use cm_base::items::Items;
use cm_base::number::{Oid, Oids};
use cm_map::set::Set;
use std::alloc::{AllocError, Global};
use std::marker::Model;

/// Numbers, each once, in the order in which they came. Whether one is among them takes about as many comparisons as their number has binary digits.
#[derive(Drop)]
pub struct Gone {
    numbers: Oids,
    set: Set<u64>,
}

impl Model for Gone {
    ghost use Rattle.std.specs.Prelude.{List};
    ghost use Rattle.cm_base.specs.declared.number.Oid.{Oid};
    ghost use Rattle.cm_removal.specs.Steps.{IsSetOf};

    ghost Value = { List Oid };

    ghost view = { λ s. s.numbers };

    ghost invariant = { λ s. IsSetOf s.set s.numbers };
}

impl Gone {
    /// No numbers.
    pub fn none(alloc: Global) -> Gone
        ensures { result ≡ [] }
    {
        Gone {
            numbers: Items::new(alloc),
            set: Set::empty(alloc),
        }
    }

    /// Whether the number is among them. It takes no memory.
    pub fn has(&self, n: Oid) -> bool
        ensures { result ≡ among self.now n }
    {
        self.set.has(&n.0)
    }

    /// The numbers in their order.
    pub fn as_slice(&self) -> &[Oid]
        ensures { result.now ≡ self.now }
    {
        self.numbers.as_slice()
    }

    // With one more at the end, where it isn't there.
    fn with(self, alloc: Global, n: Oid) -> Result<Gone, AllocError>
        ensures { IfOk result (λ g. g ≡ with_last self n) }
    {
        if self.has(n) {
            return Ok(self);
        }
        let mut numbers = self.numbers;
        let set = self.set.with(alloc, n.0)?;
        numbers.push(n)?;
        Ok(Gone { numbers, set })
    }

    /// These numbers, each where it stands first.
    pub fn of(alloc: Global, numbers: &[Oid]) -> Result<Gone, AllocError>
        ensures { IfOk result (λ g. g ≡ each_once numbers.now) }
    {
        let mut all = Gone::none(alloc);
        for n in numbers {
            all = all.with(alloc, *n)?;
        }
        Ok(all)
    }
}
