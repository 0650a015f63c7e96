// Theorems on what is supplied, each as the contract of a function that does nothing.
ghost use Rattle.routing_laws.specs.Guides.{OptimisticKeeps, PointingKeeps};
ghost use Rattle.routing_laws.specs.Nearest.{SafePoints};
ghost use Rattle.routing_laws.specs.Optimistic.{CompassExact};
ghost use Rattle.routing_laws.specs.Ties.{CandidatesExact};

// MD-safe's half-bytes point at the last listed elevator of smallest distance.
pub fn safe_halves_point()
    ensures { SafePoints }
{}

// Random-offline's candidates are exactly those that its rule names.
pub fn candidates_are_exact()
    ensures { CandidatesExact }
{}

// The optimistic scheme's bits are set exactly where such an elevator exists.
pub fn compasses_are_exact()
    ensures { CompassExact }
{}

pub fn pointing_keeps_the_rules()
    ensures { PointingKeeps }
{}

pub fn optimistic_keeps_the_rules()
    ensures { OptimisticKeeps }
{}
