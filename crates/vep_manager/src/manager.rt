//! Committing commands, one at a time.

ghost use Rattle.std.specs.Prelude.{◌≡◌, ◌≤◌, ◌↔◌, ◌++◌, [], ◌∷◌, length, find, IfOk, IfSome, IsNone, IsTrue, Some, option_map, vec_capacity};
ghost use Rattle.std.specs.Option.{option_to_list, option_map_or};
ghost use Rattle.vep_manager.specs.Setup.{command_count};
ghost use Rattle.vep_manager.specs.Replies.{stop_reply, fits_reply};
ghost use Rattle.vep_manager.specs.inner.Keeping.{counted};
ghost use Rattle.vep_manager.specs.inner.Claims.{claimed_at};

use crate::conflict::first_conflict;
use crate::granting::{follow, load_count, named_grant, named_load};
use crate::horizon::{command_after, commands, count, horizon, slot_for};
use crate::owners::OwnerIndex;
use crate::reply::{Entry, Reply};
use crate::setup::Setup;
use bundle_model::{Grant, Schedule};
use script_file::Command;
use soc_base::{LAST_CYCLE, Label, MOST_COMMANDS, NoMemory};
use std::alloc::Global;
use std::marker::Model;

/// The manager: it commits the sessions' commands, and holds the history that they make.
#[derive(Drop)]
pub struct Manager<'s> {
    setup: &'s Setup,
    owners: OwnerIndex<'s>,
    history: Vec<Entry>,
    horizon: u64,
}

impl<'s> Model for Manager<'s> {
    ghost use Rattle.std.specs.Prelude.{◌≡◌, vec_capacity};
    ghost use Rattle.vep_manager.specs.Manager.{ManagerState};
    ghost use Rattle.vep_manager.specs.inner.Keeping.{IsKept};

    ghost Value = { ManagerState };

    /// The setup and the history.
    ghost view = { λ m. record { setup = m.setup.now; history = m.history.items } };

    /// The history is legal, the grants and the horizon are those of it, and there is room for the entries
    /// that are still to come.
    ghost invariant = { λ m. IsKept (record { setup = m.setup.now; history = m.history.items })
        (record {
          grants = m.owners.grants;
          horizon = m.horizon;
          entry_room = vec_capacity m.history;
        })
        × (m.owners.setup ≡ m.setup.now) };
}

// The reply to a stop of a grant.
fn stopped(horizon: u64, slot: u64, grant: &Grant) -> Reply
    ensures { result ≡ stop_reply horizon slot (Some grant.now) }
{
    if let Some(end) = grant.end {
        return Reply::Already(end);
    }
    if slot < horizon {
        return Reply::Past(horizon);
    }
    Reply::Stopped {
        label: grant.label,
        end: slot.max(grant.start),
    }
}

// How many commands the sessions have.
fn total(setup: &Setup) -> usize
    requires { command_count setup.now ≤ MOST_COMMANDS }
    ensures { result ≡ command_count setup.now }
{
    let mut total = 0;
    for script in setup.scripts.as_slice() {
        total += script.commands.len();
    }
    total
}

impl<'s> Manager<'s> {
    ghost use Rattle.bundle_model.specs.Grants.{IsApart};
    ghost use Rattle.bundle_model.specs.World.{IsSoundWorld};
    ghost use Rattle.vep_manager.specs.Setup.{IsSound};
    ghost use Rattle.vep_manager.specs.Granted.{AreGranted};
    ghost use Rattle.vep_manager.specs.History.{IsSession, is_used_up, count_of, commands_of, grants_of, horizon_of, horizon_with};
    ghost use Rattle.vep_manager.specs.Replies.{label_reply, label_stop, next_entry, next_label, reply_to};
    ghost use Rattle.vep_manager.specs.Legal.{IsLegal};

    /// Makes a manager with no history, and takes all the memory that its other calls need.
    #[tactic(auto, using(crate::proofs::SetupLemmas::sound_world, crate::proofs::Standing::legal_none, crate::proofs::Settled::grants_none))]
    pub fn new(alloc: Global, setup: &'s Setup) -> Result<Manager<'s>, NoMemory>
        requires { IsSound setup.now }
        ensures made { IfOk result (λ m. m ≡ record { setup = setup.entry.now; history = [] }) }
        ensures world { IsSoundWorld setup.entry.now.world setup.entry.now.loads }
        ensures legal { IsLegal setup.entry.now [] }
        ensures no_grants { grants_of setup.entry.now [] ≡ [] }
    {
        let owners = OwnerIndex::new(alloc, setup)?;
        let history = Vec::with_capacity(alloc, total(setup))?;
        let horizon = horizon(setup, &[], None);
        Ok(Manager {
            setup,
            owners,
            history,
            horizon,
        })
    }

    // How many of a session's commands stand in the history.
    fn done(&self, session: u8) -> usize
        ensures count { result ≡ count_of self.now.history session }
        ensures within { result ≤ length (commands_of self.now.setup session) }
        ensures few { result ≤ MOST_COMMANDS }
    {
        count(self.history.as_slice(), session)
    }

    // The horizon, once session `next`, if one is given, has committed a command more.
    fn horizon_after(&self, next: Option<u8>) -> u64
        ensures { result ≡ horizon_with self.now.setup (counted next self.now.history) }
    {
        horizon(self.setup, self.history.as_slice(), next)
    }

    // The label of a session's next load.
    fn next_label(&self, session: u8) -> Label
        requires { IsSession self.now.setup session }
        ensures { result ≡ next_label self.now.setup session (count_of self.now.history session) }
    {
        let done = self.done(session);
        let before = load_count(&commands(self.setup, session)[..done]);
        Label {
            session,
            load: before as u16 + 1,
        }
    }

    // The reply to a load of the bundle at a place of the catalog, which breaks no rule: that it comes too
    // late, that a resource is held, or that it is granted.
    fn granted_or_taken(&self, label: Label, place: u16, start: u64) -> Reply
        ensures { result ≡ fits_reply self.now.setup self.now.history label start (claimed_at self.now.setup.world place) }
    {
        if start < self.horizon {
            return Reply::Past(self.horizon);
        }
        let wanted = self.owners.of_bundle(place);
        match first_conflict(&self.owners, start, wanted) {
            Some(reply) => reply,
            None => Reply::Granted { label, start },
        }
    }

    // The reply to the load of a label, if there is one.
    fn load_reply(&self, label: Label, start: u64) -> Option<Reply>
        ensures { result ≡ label_reply self.now.setup self.now.history label start }
    {
        let Some(load) = named_load(self.setup.loads.as_slice(), label) else {
            return None;
        };
        let Some(named) = self.setup.world.catalog.get(usize::from(load.bundle)) else {
            return None;
        };
        match &named.judged {
            Ok(_) => Some(self.granted_or_taken(label, load.bundle, start)),
            Err(rule) => Some(Reply::Malformed(*rule)),
        }
    }

    // The reply to a stop of the load of a label.
    fn stop_reply(&self, label: Label, slot: u64) -> Reply
        ensures { result ≡ label_stop self.now.setup self.now.history label slot }
    {
        match named_grant(self.owners.grants(), label) {
            Some(grant) => stopped(self.horizon, slot, grant),
            None => Reply::NoLoad,
        }
    }

    // The reply to a session's next command.
    fn reply(&self, session: u8, command: &Command) -> Option<Reply>
        requires { IsSession self.now.setup session }
        ensures { result ≡ reply_to self.now.setup self.now.history session command.now }
    {
        match command {
            Command::Load { name: _, cycle } => {
                self.load_reply(self.next_label(session), slot_for(self.setup, *cycle))
            }
            Command::Stop { load, cycle } => {
                let label = Label {
                    session,
                    load: *load,
                };
                Some(self.stop_reply(label, slot_for(self.setup, *cycle)))
            }
            Command::Until { cycle: _ } => Some(Reply::Horizon(self.horizon_after(Some(session)))),
        }
    }

    // The entry that a session's next command adds, if there is one.
    #[tactic(auto, unfolding(crate::specs::Replies::next_entry))]
    fn next(&self, session: u8) -> Option<Entry>
        requires { IsSession self.now.setup session }
        ensures entry { result ≡ next_entry self.now.setup self.now.history session }
        ensures session { IfSome result (λ entry. entry.session ≡ session) }
        ensures sound { IsSound self.now.setup }
        ensures legal { IsLegal self.now.setup self.now.history }
    {
        let done = self.done(session);
        let Some(command) = command_after(self.setup, session, done) else {
            return None;
        };
        let Some(reply) = self.reply(session, command) else {
            return None;
        };
        Some(Entry {
            session,
            index: done as u16 + 1,
            reply,
        })
    }

    // Adds an entry to the history.
    fn keep(&mut self, entry: Entry)
        requires { next_entry self.old.setup self.old.history entry.session ≡ Some entry }
        ensures { self.new ≡ record self.old { history = self.old.history ++ entry ∷ [] } }
    {
        follow(self.setup, &mut self.owners, entry.reply);
        self.history.push_reserved(entry);
        self.horizon = horizon(self.setup, self.history.as_slice(), None);
    }

    /// Commits a session's next command, and answers its entry, which is the last one of the history
    /// then. None where the session's script is used up, and then nothing changes. Takes no memory.
    pub fn commit(&mut self, session: u8) -> Option<Entry>
        requires { IsSession self.old.setup session }
        ensures entry { result ≡ next_entry self.old.setup self.old.history session }
        ensures used_up { IsNone result ↔ IsTrue (is_used_up self.old.setup self.old.history session) }
        ensures appended { self.new ≡ record self.old { history = self.old.history ++ option_to_list result } }
        ensures legal { IsLegal self.new.setup self.new.history }
        ensures apart { IsApart self.new.setup.world (grants_of self.new.setup self.new.history) }
        ensures granted { AreGranted self.new.setup LAST_CYCLE self.new.history }
    {
        let next = self.next(session);
        if let Some(entry) = next {
            self.keep(entry);
        }
        next
    }

    /// Overwrites a schedule with that of the whole history: its grants, and the horizon. The schedule has
    /// room for a grant of each load, and keeps its room. Takes no memory.
    pub fn copy_since(&self, into: &mut Schedule)
        requires { length self.now.setup.loads ≤ vec_capacity into.old.grants }
        ensures grants { into.new.grants.items ≡ grants_of self.now.setup self.now.history }
        ensures horizon { into.new.horizon ≡ horizon_of self.now.setup self.now.history }
        ensures room { vec_capacity into.new.grants ≡ vec_capacity into.old.grants }
        ensures legal { IsLegal self.now.setup self.now.history }
    {
        into.grants.clear();
        for grant in self.owners.grants() {
            into.grants.push_reserved(*grant);
        }
        into.horizon = self.horizon;
    }

    /// Answers the history.
    pub fn history(&self) -> &[Entry]
        ensures { result.now ≡ self.now.history }
    {
        self.history.as_slice()
    }

    /// Gives the history. Takes no memory.
    pub fn into_history(self) -> Vec<Entry>
        ensures history { result.items ≡ self.entry.history }
        ensures legal { IsLegal self.entry.setup self.entry.history }
    {
        self.history
    }

    /// Answers the setup.
    pub fn setup(&self) -> &'s Setup
        ensures { result.now ≡ self.now.setup }
    {
        self.setup
    }
}
