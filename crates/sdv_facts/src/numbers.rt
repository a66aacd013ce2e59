//! What is known of the number variables and of the capacity.

ghost use Rattle.std.specs.Prelude.{◌≡◌, ◌≤◌};
ghost use Rattle.sdv_card.specs.Card.{capacity_of};
ghost use Rattle.sdv_facts.specs.Facts.{weakest, var, gap_in, with_var};
ghost use Rattle.sdv_facts.specs.Limits.{VarInLimits, NumbersInLimits};
ghost use Rattle.sdv_facts.specs.Start.{start_numbers, HoldAtStart};
ghost use Rattle.sdv_facts.specs.Versions.{var_without_boot, without_boot};

use arrayvec::ArrayVec;
use sdv_card::Partition;
use sdv_graph::MAX_NUMBER;

/// What is known of a number variable.
#[derive(Clone, Copy, Debug, Default, PartialEq, Eq)]
pub struct VarFacts {
    /// Its least value.
    pub lo: u64,
    /// Its greatest value.
    pub hi: u64,
    /// How many blocks the user area has at least from its value on; nothing where that is not known.
    pub gap: Option<u64>,
    /// The same of a boot partition.
    pub bgap: Option<u64>,
}

/// What is known of numbers.
#[derive(Debug, PartialEq, Eq)]
pub struct Numbers {
    /// The least capacity of the card, which is that of its user area, in blocks.
    pub m: u64,
    /// The least capacity of a boot partition, in blocks.
    pub mb: u64,
    /// The number variables, in declared order.
    pub vars: ArrayVec<VarFacts, 8>,
}

impl Drop for Numbers {
    // A caller that drops bounds then reuses one proved `drop`.
    fn drop(self) {
        let Numbers {
            m: _,
            mb: _,
            vars: _vars,
        } = self;
    }
}

impl VarFacts {
    /// Nothing but that the variable is a number of a script.
    pub fn weakest() -> VarFacts
        ensures { result ≡ weakest }
    {
        VarFacts {
            lo: 0,
            hi: MAX_NUMBER,
            gap: None,
            bgap: None,
        }
    }

    /// The same, with nothing known of boot partitions.
    fn without_boot(self) -> VarFacts
        ensures { result ≡ var_without_boot self }
    {
        VarFacts { bgap: None, ..self }
    }

    /// How many blocks the partition has at least from its value on; nothing where that is not known.
    pub(crate) fn gap_in(self, partition: Partition) -> Option<u64>
        ensures { result ≡ gap_in partition self }
    {
        match partition {
            Partition::User => self.gap,
            Partition::Boot1 | Partition::Boot2 => self.bgap,
        }
    }
}

impl Numbers {
    /// What is known before the first command, of so many variables: each is 0, the card has a block, and it may have no
    /// boot partitions.
    pub fn at_start(count: usize) -> Numbers
        requires few { count ≤ 8 }
        ensures numbers { result ≡ start_numbers count }
        ensures hold { HoldAtStart count result }
        ensures limits { NumbersInLimits result }
    {
        let mut vars = ArrayVec::new();
        for _ in 0..count {
            vars.push(VarFacts {
                lo: 0,
                hi: 0,
                gap: Some(1),
                bgap: Some(0),
            });
        }
        Numbers { m: 1, mb: 0, vars }
    }

    /// The least capacity of the partition, in blocks.
    pub(crate) fn least_in(&self, partition: Partition) -> u64
        ensures { result ≡ capacity_of partition self.now.m self.now.mb }
    {
        match partition {
            Partition::User => self.m,
            Partition::Boot1 | Partition::Boot2 => self.mb,
        }
    }

    /// What is known of the variable in this place, from 0; nothing where there is none.
    pub fn var(&self, variable: usize) -> VarFacts
        ensures facts { result ≡ var self.now variable }
        ensures limits { NumbersInLimits self.now → VarInLimits result }
    {
        match self.vars.get(variable) {
            Some(known) => *known,
            None => VarFacts::weakest(),
        }
    }

    /// The same numbers, but other things are known of the variable in this place.
    pub(crate) fn with_var(&self, variable: usize, known: VarFacts) -> Numbers
        ensures numbers { result ≡ with_var self.now variable known }
        ensures limits { NumbersInLimits self.now → VarInLimits known → NumbersInLimits result }
    {
        let mut numbers = self.copied();
        if variable < numbers.vars.len() {
            numbers.vars[variable] = known;
        }
        numbers
    }

    /// The same numbers, with nothing known of boot partitions.
    pub fn without_boot(&self) -> Numbers
        ensures { result ≡ without_boot self.now }
    {
        let mut vars = ArrayVec::new();
        for known in self.vars.as_slice() {
            vars.push(known.without_boot());
        }
        Numbers {
            m: self.m,
            mb: 0,
            vars,
        }
    }

    /// The same numbers.
    pub fn copied(&self) -> Numbers
        ensures { result ≡ self.now }
    {
        let mut vars = ArrayVec::new();
        for known in self.vars.as_slice() {
            vars.push(*known);
        }
        Numbers {
            m: self.m,
            mb: self.mb,
            vars,
        }
    }
}
