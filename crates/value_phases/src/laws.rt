//! The laws of the phases of jobs. Each function has an empty body: what it proves is its contract.
ghost use Rattle.value_phases.specs.Laws.{AppliesHaveOperands, CopiesHaveSources, JobsHaveValueKinds, JobsHaveValuePhases, JobsHaveValueStages, MadeMatricesHaveOperands, MatricesAreKnown};

/// What the phases of a valid job are about, and in which order they make its values.
pub fn jobs_have_value_phases()
    ensures { JobsHaveValuePhases }
{}

/// Which values it has: what makes those whose numbers are sent, and those with a structure of their own.
pub fn jobs_have_value_kinds()
    ensures { JobsHaveValueKinds }
{}

/// Of which value's cells a value is made, by which transfer, and with what they are combined: also where nothing is sent,
/// since the two maps are one. And of which values an apply is made, and a matrix that a statement makes of others.
pub fn values_have_operands()
    ensures copies { CopiesHaveSources }
    ensures applies { AppliesHaveOperands }
    ensures matrices { MadeMatricesHaveOperands }
{}

/// How many transfers a value has, and which matrices are assembled of the entries of their file.
pub fn values_have_stages()
    ensures stages { JobsHaveValueStages }
    ensures matrices { MatricesAreKnown }
{}
