//! Laws of the definitions, for a reader: functions that do nothing and say what is proved.

ghost use Rattle.std.specs.Prelude.{◌≡◌, ◌-◌, ◌*◌, ℕ};
ghost use Rattle.soc_base.specs.Steps.{after_steps};
ghost use Rattle.platform_model.specs.declared.platform.Platform.{Platform};
ghost use Rattle.bundle_model.specs.declared.bundle.Bundle.{Bundle};
ghost use Rattle.alone_model.specs.App.{opening, alone_at};
ghost use Rattle.alone_model.specs.Slots.{app_slot};
ghost use Rattle.alone_model.specs.Credits.{CreditsBalance};

/// Says that no credit and no word is lost: for each pair of a well-formed bundle, in both directions and in
/// each slot from the granted one on, the sender's credit, the words on their way, the words that the far port
/// received or owes credits for, and the credits on their way back are as many as a queue has places; and
/// what is delivered in the slot drops no word and cuts no credit.
pub fn credits_balance()
    ensures { CreditsBalance }
{}

/// Says that an application alone, cycle by cycle, is the application slot by slot.
pub fn alone_is_slots()
    ensures { (platform : Platform) (bundle : Bundle) (start end : ℕ) → alone_at platform bundle start end
        ≡ after_steps (app_slot platform bundle (start * platform.slot_cycles)) start (end - start) (opening platform bundle) }
{}
