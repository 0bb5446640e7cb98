//! The tables of a tile.

ghost use Rattle.std.specs.Prelude.{◌≡◌, ◌+◌, ◌%◌, ◌<◌, ◌≤◌, length, IfOk, IsTrue, None};
ghost use Rattle.tdm_network.specs.declared.routing.Outputs.{Outputs};
ghost use Rattle.tdm_network.specs.Rows.{free_rows, installed, removed, injecting};
ghost use Rattle.tdm_network.specs.Routing.{routed};
ghost use Rattle.tdm_network.specs.Spots.{Spot, spots_of, spot_of, with_spot, without_label, told, IsInRange};

use crate::entries::TableEntry;
use crate::routing::{Delivery, Outputs, delivered, idle_flits, out_flits};
use crate::rows::{Row, all_free};
use soc_base::{Flit, Label, NoMemory};
use std::alloc::Global;
use std::marker::Model;

/// The slot tables of a tile. Contracts see them as their rows, one for each table slot.
#[derive(Drop)]
pub struct SlotTables {
    rows: Vec<Row>,
    // False only where every place is free, so that such a tile's slots cost little.
    used: bool,
}

impl Model for SlotTables {
    ghost use Rattle.std.specs.Prelude.{List};
    ghost use Rattle.tdm_network.specs.declared.rows.Row.{Row};
    ghost use Rattle.tdm_network.specs.Fields.{IsMarked};

    ghost Value = { List Row };

    ghost view = { λ t. t.rows.items };

    ghost invariant = { λ t. IsMarked t.used t.rows.items };
}

impl SlotTables {
    /// Makes tables of `table_slots` slots (1 to 64), whose places are all free.
    pub fn new(alloc: Global, table_slots: u8) -> Result<SlotTables, NoMemory>
        requires some { 0 < table_slots }
        requires most { table_slots ≤ 64 }
        ensures { IfOk result (λ made. made ≡ free_rows table_slots) }
    {
        let rows = vec![in alloc; Row::free(); usize::from(table_slots)]?;
        Ok(SlotTables { rows, used: false })
    }

    /// Installs an entry for a label at the entry's own place, which has to be free. Every other place
    /// stays as it was. Takes no memory.
    pub fn install(&mut self, label: Label, entry: TableEntry)
        requires range { IsInRange (length self.old) entry }
        requires free { spots_of self.old (spot_of entry) ≡ None }
        ensures rows { self.new ≡ installed label entry self.old }
        ensures alone { (spot : Spot) → spots_of self.new spot ≡ with_spot label entry (spots_of self.old) spot }
    {
        let slot = entry.slot();
        let row = &mut self.rows[usize::from(slot)];
        row.add(label, entry);
        self.used = true;
    }

    /// Frees the places that a label holds, and no other. Takes no memory.
    pub fn remove(&mut self, label: Label)
        ensures rows { self.new ≡ removed label self.old }
        ensures alone { (spot : Spot) → spots_of self.new spot ≡ without_label label (spots_of self.old) spot }
    {
        for row in self.rows.iter_mut() {
            row.clear(label);
        }
        self.used = !all_free(self.rows.as_slice());
    }

    /// Answers the port that injects in a slot, counted from the first slot of the run, if the place in the
    /// inject table isn't free.
    #[tactic(auto, using(crate::proofs::RoutingLemmas::nobody_injects))]
    pub fn inject_port(&self, slot: u64) -> Option<u8>
        ensures { result ≡ injecting self.now slot }
    {
        if !self.used {
            return None;
        }
        let place = self.rows[self.row_number(slot)].inject?;
        Some(place.what)
    }

    // The number of a slot's row.
    fn row_number(&self, slot: u64) -> usize
        ensures row { result ≡ slot % length self.now }
        ensures within { result < length self.now }
        ensures few { length self.now ≤ 64 }
    {
        (slot % self.rows.len() as u64) as usize
    }

    // The number of the row after that of a slot.
    #[tactic(auto, using(crate::proofs::RowNumbers::first_again, crate::proofs::RowNumbers::one_more))]
    fn row_after(&self, slot: u64, row: usize) -> usize
        requires { row ≡ slot % length self.now }
        ensures row { result ≡ (slot + 1) % length self.now }
        ensures within { result < length self.now }
    {
        let rows = self.rows.len();
        if row + 1 == rows {
            return 0;
        }
        row + 1
    }

    /// Answers whether it is known that every place is free: then no port injects, outputs are idle, and
    /// nothing is delivered.
    pub fn is_free(&self) -> bool
        ensures { IsTrue result → self.now ≡ free_rows (length self.now) }
    {
        !self.used
    }

    /// Writes what a slot does with the flits on the inputs and the one that the tile injects: the flits of
    /// the outputs in the slot after it, by that next slot's entries. Answers the delivery at the end of this
    /// slot, by its own entry. Takes no memory.
    #[tactic(auto, using(crate::proofs::RoutingLemmas::no_flits, crate::proofs::RoutingLemmas::no_delivery))]
    pub fn route_into(
        &self,
        slot: u64,
        inputs: &[Flit; 7],
        injected: Flit,
        links: &mut [Flit; 7],
    ) -> Option<Delivery>
        ensures links { links.new ≡ (routed self.now slot inputs.now injected).links }
        ensures deliver { result ≡ (routed self.now slot inputs.now injected).deliver }
    {
        if !self.used {
            idle_flits(links);
            return None;
        }
        let now = self.row_number(slot);
        let next = self.row_after(slot, now);
        let deliver = delivered(inputs, self.rows[now].deliver);
        let row = &self.rows[next];
        out_flits(inputs, injected, &row.outs, links);
        deliver
    }

    /// Answers what a slot does with the flits on the inputs and the one that the tile injects: the flits
    /// of the outputs in the slot after it, by that next slot's entries, and the delivery at the end of
    /// this slot, by its own entry. Takes no memory.
    pub fn route(&self, slot: u64, inputs: &[Flit; 7], injected: Flit) -> Outputs
        ensures { result ≡ routed self.now slot inputs.now injected }
    {
        let mut outputs = Outputs::idle();
        outputs.deliver = self.route_into(slot, inputs, injected, &mut outputs.links);
        outputs
    }

    /// Reads one place: of table 0, which port injects in a slot; of table 1, what output `row` carries in
    /// it; of table 2, what is delivered in it. Answers the label and the entry, if the place isn't free.
    pub fn place(&self, table: u8, row: u8, slot: u8) -> Option<(Label, TableEntry)>
        requires table { table < 3 }
        requires row { row < 7 }
        requires slot { slot < length self.now }
        ensures { result ≡ told table row slot self.now }
    {
        let places = &self.rows[usize::from(slot)];
        match table {
            0 => {
                let entry = places.inject?;
                let port = entry.what;
                Some((entry.label, TableEntry::Inject { slot, port }))
            }
            1 => {
                let entry = places.outs[usize::from(row)]?;
                let source = entry.what;
                let out = row;
                Some((entry.label, TableEntry::Out { out, slot, source }))
            }
            _ => {
                let entry = places.deliver?;
                let input = entry.what.input;
                let port = entry.what.port;
                Some((entry.label, TableEntry::Deliver { slot, input, port }))
            }
        }
    }
}
