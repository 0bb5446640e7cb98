//! The order of rows, and the rows of several logs in one list.

ghost use Rattle.std.specs.Prelude.{◌≡◌, ◌+◌, ◌≤◌, ◌++◌, length, vec_len, vec_capacity};
ghost use Rattle.std.specs.List.Sorted.{IsSorted, IsPermutation};
ghost use Rattle.trace_log.specs.Rows.{row_cmp};

use crate::log::PartLog;
use crate::row::TraceRow;
use std::cmp::Ordering;

impl Ord for TraceRow {
    ghost use Rattle.std.proofs.Common.{rules};
    ghost use Rattle.std.specs.Cmp.Rules.{comparing};
    ghost use Rattle.trace_log.specs.Rows.{row_cmp};

    ghost cmp = { row_cmp };

    ghost total = { Prim.search (comparing, rules) depth 9 };

    ghost matches_partial_cmp = { Prim.search (comparing, rules) depth 9 };

    ghost matches_eq = { Prim.search (comparing, rules) depth 9 };

    fn cmp(&self, other: &TraceRow) -> Ordering {
        self.cycle
            .cmp(&other.cycle)
            .then(self.tile.cmp(&other.tile))
            .then(self.kind.phase().cmp(&other.kind.phase()))
            .then(self.value.cmp(&other.value))
    }
}

impl PartialOrd for TraceRow {
    ghost use Rattle.std.proofs.Common.{rules};
    ghost use Rattle.std.specs.Cmp.{partial_order_from_own_ties};
    ghost use Rattle.std.specs.Cmp.Rules.{comparing};
    ghost use Rattle.std.specs.Ordering.{as_partial_cmp};
    ghost use Rattle.trace_log.specs.Rows.{row_cmp};

    ghost partial_cmp = { as_partial_cmp row_cmp };

    ghost laws = { partial_order_from_own_ties (Prim.search (comparing, rules) depth 9) (Prim.search (comparing, rules) depth 9) };

    fn partial_cmp(&self, other: &TraceRow) -> Option<Ordering> {
        Some(self.cmp(other))
    }
}

/// Adds the rows of a log to a list with room for them, and puts the list in order of cycle, tile and
/// phase. Takes no memory.
pub fn merge(into: &mut Vec<TraceRow>, log: &PartLog)
    requires { vec_len into.old + length log.now.rows ≤ vec_capacity into.old }
    ensures rows { IsPermutation (into.old.items ++ log.now.rows) into.new.items }
    ensures order { IsSorted row_cmp into.new.items }
    ensures room { vec_capacity into.new ≡ vec_capacity into.old }
{
    for row in log.rows() {
        into.push_reserved(*row);
    }
    into.sort_unstable();
}
