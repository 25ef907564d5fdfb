// Segment runs without loops and calls are the runs of their functions.
ghost use Rattle.goal_segments.specs.RunLaws.{RunsAreSegmentRuns, SegmentRunsAreRuns};

/// However a segment run of a function ends, its run as it is spelled ends so, in the state, or at the kind and the line.
#[tactic(auto, using(crate::proofs::Whole::segment_runs_are_runs))]
pub fn segment_runs_are_runs()
    ensures { SegmentRunsAreRuns }
{}

/// A run of a function without loops and calls is a segment run.
#[tactic(auto, using(crate::proofs::Found::runs_are_segment_runs))]
pub fn runs_are_segment_runs()
    ensures { RunsAreSegmentRuns }
{}
