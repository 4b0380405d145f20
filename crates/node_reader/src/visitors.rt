// Three visitors: one puts records into a row, one holds the nodes to a lent table, one does nothing.
ghost use Rattle.std.specs.Prelude.{ℕ, ◌≡◌, ◌<◌};
ghost use Rattle.definitions.specs.Words.Limits.{two_bytes};
ghost use Rattle.node_reader.specs.Visitors.{OpenedAt, ClosedAt, StartsThere, EndsThere};

use super::visits::Visit;
use node_table::NodeRecord;

// A row of records, for as many nodes as it has places.
#[derive(Drop)]
pub struct Fill<'a> {
    pub row: &'a mut [NodeRecord],
}

impl Visit for Fill<'_> {
    ghost deeds = { record {
      Place = λ p. p < two_bytes;
      Open = λ v i kind at w. (w.row.ghost_name ≡ v.row.ghost_name) × OpenedAt v.row.now i kind at w.row.now;
      Close = λ v i end w. (w.row.ghost_name ≡ v.row.ghost_name) × ClosedAt v.row.now i end w.row.now;
      NotOpen = λ v i kind at. ⊥;
      NotClose = λ v i end. ⊥;
    } };

    #[inline(always)]
    fn open(&mut self, i: usize, kind: u8, at: usize) -> bool {
        let row = &mut *self.row;
        if i < row.len() {
            let record = &mut row[i];
            record.kind = kind;
            record.start = at as u16;
        }
        true
    }

    #[inline(always)]
    fn close(&mut self, i: usize, end: usize) -> bool {
        let row = &mut *self.row;
        if i < row.len() {
            row[i].end = end as u16;
        }
        true
    }

    #[inline(always)]
    fn leaf(&mut self, i: usize, kind: u8, at: usize, end: usize) -> bool {
        let row = &mut *self.row;
        if i < row.len() {
            let record = &mut row[i];
            record.kind = kind;
            record.start = at as u16;
            record.end = end as u16;
        }
        true
    }
}

// A lent table, which has to have these nodes.
#[derive(Drop)]
pub struct Check<'a> {
    pub table: &'a [NodeRecord],
}

impl Visit for Check<'_> {
    ghost deeds = { record {
      Place = λ p. Unit {0};
      Open = λ v i kind at w. (w.table.now ≡ v.table.now) × StartsThere v.table.now i kind at;
      Close = λ v i end w. (w.table.now ≡ v.table.now) × EndsThere v.table.now i end;
      NotOpen = λ v i kind at. StartsThere v.table.now i kind at → ⊥;
      NotClose = λ v i end. EndsThere v.table.now i end → ⊥;
    } };

    #[inline(always)]
    fn open(&mut self, i: usize, kind: u8, at: usize) -> bool {
        let table = self.table;
        i < table.len() && table[i].kind == kind && usize::from(table[i].start) == at
    }

    #[inline(always)]
    fn close(&mut self, i: usize, end: usize) -> bool {
        let table = self.table;
        i < table.len() && usize::from(table[i].end) == end
    }

    #[inline(always)]
    fn leaf(&mut self, i: usize, kind: u8, at: usize, end: usize) -> bool {
        let table = self.table;
        i < table.len()
            && table[i].kind == kind
            && usize::from(table[i].start) == at
            && usize::from(table[i].end) == end
    }
}

// Nothing.
#[derive(Drop)]
pub struct Nothing {}

impl Visit for Nothing {
    ghost deeds = { record {
      Place = λ p. Unit {0};
      Open = λ v i kind at w. Unit {0};
      Close = λ v i end w. Unit {0};
      NotOpen = λ v i kind at. ⊥;
      NotClose = λ v i end. ⊥;
    } };

    #[inline(always)]
    fn open(&mut self, _i: usize, _kind: u8, _at: usize) -> bool {
        true
    }

    #[inline(always)]
    fn close(&mut self, _i: usize, _end: usize) -> bool {
        true
    }

    #[inline(always)]
    fn leaf(&mut self, _i: usize, _kind: u8, _at: usize, _end: usize) -> bool {
        true
    }
}
