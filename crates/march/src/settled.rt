//! A ray that has settled.
ghost use Rattle.std.specs.Prelude.{◌≡◌};

/// How a ray settled: at the depth of its first contact, or with none up to its end.
#[derive(Clone, Copy, PartialEq, Eq, Debug)]
pub enum Outcome {
    Hit { depth: u32 },
    Miss,
}

/// A ray that has settled. It takes no step.
#[derive(Drop)]
pub struct Settled {
    pub(crate) outcome: Outcome,
    pub(crate) probes: u32,
}

impl Settled {
    ghost use Rattle.march.specs.Rays.{outcome_of, probes_of, contact_depth};

    /// How it settled.
    pub fn outcome(&self) -> Outcome
        ensures { result ≡ outcome_of self.now }
    {
        self.outcome
    }

    /// The depth of its first contact; none for a miss.
    pub fn depth(&self) -> Option<u32>
        ensures { result ≡ contact_depth (outcome_of self.now) }
    {
        match self.outcome {
            Outcome::Hit { depth } => Some(depth),
            Outcome::Miss => None,
        }
    }

    /// How often it has asked.
    pub fn probes(&self) -> u32
        ensures { result ≡ probes_of self.now }
    {
        self.probes
    }
}
