// Laws over the definitions.
ghost use Rattle.fc_levels.specs.Jobs.{JobsAreCounted};

/// The jobs of each message are known one by one, each before it begins.
pub fn jobs_are_counted()
    ensures { JobsAreCounted }
{}
