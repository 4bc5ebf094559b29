//! What the end lines of a run say of a lane.

ghost use Rattle.std.specs.Prelude.{◌↔◌, IsTrue};
ghost use Rattle.ledger_rules.specs.Accounting.{Differs};

use crate::account::Fates;

/// What an end line says of a lane.
#[derive(Clone, Copy, Debug, PartialEq, Eq)]
pub struct EndCounts {
    /// How many responses the lane had.
    pub entries: u64,
    /// What became of its requests, if the line says it.
    pub fates: Option<Fates>,
}

/// What the last end line says of a lane, and whether a line behind an end line contradicts it.
#[derive(Clone, Copy, Debug, PartialEq, Eq)]
pub struct Ending {
    said: Option<EndCounts>,
    contradicted: bool,
}

impl Ending {
    ghost use Rattle.std.specs.Prelude.{◌≡◌, ◌↔◌, ◌⊎◌, false, IsTrue, None, Some, is_some};
    ghost use Rattle.ledger_rules.specs.Accounting.{Differs};

    /// Returns that of a lane without lines.
    pub fn new() -> Ending
        ensures { (result.said ≡ None) × (result.contradicted ≡ false) }
    {
        Ending {
            said: None,
            contradicted: false,
        }
    }

    /// Takes a line of the lane that counts and is no end line: behind an end line there is none.
    pub fn go_on(&mut self)
        ensures said { self.new.said ≡ self.old.said }
        ensures contradicted { IsTrue self.new.contradicted ↔ (IsTrue self.old.contradicted ⊎ IsTrue (is_some self.old.said)) }
    {
        if self.said.is_some() {
            self.contradicted = true;
        }
    }

    /// Takes what an end line says: another one says the same.
    pub fn end(&mut self, counts: EndCounts)
        ensures said { self.new.said ≡ Some counts }
        ensures contradicted { IsTrue self.new.contradicted ↔ (IsTrue self.old.contradicted ⊎ Differs self.old.said counts) }
    {
        if differs(self.said, counts) {
            self.contradicted = true;
        }
        self.said = Some(counts);
    }

    /// Whether a line behind an end line contradicts it.
    pub fn is_contradicted(&self) -> bool
        ensures { result ≡ self.now.contradicted }
    {
        self.contradicted
    }
}

fn differs(said: Option<EndCounts>, counts: EndCounts) -> bool
    ensures { IsTrue result ↔ Differs said counts }
{
    match said {
        Some(its) => its != counts,
        None => false,
    }
}
