//! Where a worker learns of the grants.

ghost use Rattle.std.specs.Prelude.{◌≡◌, ◌≤◌, length, vec_capacity};
ghost use mathlib.Core.List.{IsPrefix};
ghost use Rattle.vep_manager.specs.History.{grants_of, horizon_of};
ghost use Rattle.vep_manager.specs.Legal.{IsLegal};
ghost use Rattle.tile_workers.specs.Work.{Rises};

use bundle_model::Schedule;

/// What keeps a schedule up to date while commands are committed elsewhere.
pub trait Feed {
    ghost use Rattle.std.specs.Prelude.{ℕ, List};
    ghost use Rattle.vep_manager.specs.declared.setup.Setup.{Setup};
    ghost use Rattle.vep_manager.specs.declared.reply.Entry.{Entry};

    /// The setup of the run, which never changes.
    ghost setup: { Self → Setup };

    /// The type of what else never changes of the feed.
    ghost Kept: { Type 0 };

    /// What else never changes of the feed, so that those who made it know it again.
    ghost kept: { Self → Kept };

    /// The entries of the history that were seen.
    ghost seen: { Self → List Entry };

    /// How many times the schedule was asked for; a count that stops at the greatest u64 meets it too.
    ghost turns: { Self → ℕ };

    /// Makes the schedule, which has room for every load and keeps it, that of the entries that are seen then,
    /// which begin with those seen before and are a legal history. Takes no memory.
    fn refresh(&mut self, into: &mut Schedule)
        requires room { length (setup self.old).loads ≤ vec_capacity into.old.grants }
        ensures setup { setup self.new ≡ setup self.old }
        ensures kept { kept self.new ≡ kept self.old }
        ensures begins { IsPrefix (seen self.old) (seen self.new) }
        ensures legal { IsLegal (setup self.new) (seen self.new) }
        ensures grants { into.new.grants.items ≡ grants_of (setup self.new) (seen self.new) }
        ensures horizon { into.new.horizon ≡ horizon_of (setup self.new) (seen self.new) }
        ensures room { vec_capacity into.new.grants ≡ vec_capacity into.old.grants }
        ensures turns { Rises (turns self.old) (turns self.new) };
}
