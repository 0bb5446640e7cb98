//! The places of one slot.

ghost use Rattle.std.specs.Prelude.{◌≡◌, length, map, replicate, None, IsTrue};
ghost use Rattle.tdm_network.specs.Rows.{kept, free_rows};

use crate::entries::{Arrival, Entry, Source, TableEntry, kept};
use soc_base::Label;

/// What a tile's tables hold for one slot: the port that injects, the source of each output, and what is
/// delivered. A place that holds nothing is free.
#[derive(Clone, Copy)]
pub struct Row {
    /// The port that injects in the slot.
    pub inject: Option<Entry<u8>>,
    /// For each output, what it carries in the slot.
    pub outs: [Option<Entry<Source>>; 7],
    /// What is delivered in the slot.
    pub deliver: Option<Entry<Arrival>>,
}

impl Row {
    ghost use Rattle.tdm_network.specs.Rows.{free_row, with_entry, kept_row};
    ghost use Rattle.tdm_network.specs.Spots.{IsNumbered};

    // A row whose places are all free.
    pub(crate) fn free() -> Row
        ensures { result ≡ free_row }
    {
        Row {
            inject: None,
            outs: [None; 7],
            deliver: None,
        }
    }

    // Puts an entry into its place.
    pub(crate) fn add(&mut self, label: Label, entry: TableEntry)
        requires { IsNumbered entry }
        ensures entry { self.new ≡ with_entry label entry self.old }
        ensures outs { length self.old.outs ≡ 7 }
    {
        match entry {
            TableEntry::Inject { slot: _, port } => {
                self.inject = Some(Entry { label, what: port });
            }
            TableEntry::Out {
                out,
                slot: _,
                source,
            } => {
                self.outs[usize::from(out)] = Some(Entry {
                    label,
                    what: source,
                });
            }
            TableEntry::Deliver {
                slot: _,
                input,
                port,
            } => {
                let what = Arrival { input, port };
                self.deliver = Some(Entry { label, what });
            }
        }
    }

    // Whether every place is free.
    fn is_free(&self) -> bool
        ensures { IsTrue result → self.now ≡ free_row }
    {
        self.inject.is_none() && self.deliver.is_none() && outs_free(&self.outs)
    }

    // Frees the places of a label.
    pub(crate) fn clear(&mut self, label: Label)
        ensures { self.new ≡ kept_row label self.old }
    {
        self.inject = kept(label, self.inject);
        clear_outs(&mut self.outs, label);
        self.deliver = kept(label, self.deliver);
    }
}

// Frees the outputs of a label.
fn clear_outs(outs: &mut [Option<Entry<Source>>; 7], label: Label)
    ensures { outs.new ≡ map (kept label) outs.old }
{
    for out in 0..7usize {
        outs[out] = kept(label, outs[out]);
    }
}

// Whether every output is free.
#[tactic(auto, using(crate::proofs::Written::same_more, crate::proofs::Written::same_all))]
fn outs_free(outs: &[Option<Entry<Source>>; 7]) -> bool
    ensures { IsTrue result → outs.now ≡ replicate 7 None }
{
    for out in outs {
        if out.is_some() {
            return false;
        }
    }
    true
}

// Whether every place of the rows is free.
#[tactic(auto, using(crate::proofs::Written::same_more, crate::proofs::Written::same_all))]
pub(crate) fn all_free(rows: &[Row]) -> bool
    ensures { IsTrue result → rows.now ≡ free_rows (length rows.now) }
{
    for row in rows {
        if !row.is_free() {
            return false;
        }
    }
    true
}
