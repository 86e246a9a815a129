ghost use Rattle.module_validator.specs.Host.{host};
ghost use Rattle.tree_machine.specs.Typed.{Offers};

/// The host over which modules are accepted offers the table of host calls: so a run of an accepted module is never stuck
/// (`tree_machine::accepted_runs_are_never_stuck`). It computes nothing.
#[tactic(auto, unfolding(module_validator::specs::Host::host))]
pub fn accepted_over_the_host_table()
    ensures { Offers host }
{}
