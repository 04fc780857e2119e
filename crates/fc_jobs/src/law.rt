// A law about ways.
ghost use Rattle.fc_jobs.specs.Walked.{WalksBySegment};

/// Over all segments a way leads to the sets that it leads to in each of them.
pub fn walks_by_segment()
    ensures { WalksBySegment }
{}
