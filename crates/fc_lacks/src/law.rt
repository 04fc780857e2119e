// A law about what lacks.
ghost use Rattle.fc_lacks.specs.Lacking.{LackingIsUntold};

/// Over what messages hold, what lacks is what is wanted without what was told.
pub fn lacking_is_untold()
    ensures { LackingIsUntold }
{}
