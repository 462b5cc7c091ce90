// The table of a run: what a visit reads of a node's record, in one number of 64 bits for each node, and after the nodes the
// readings.
ghost use Rattle.std.specs.Prelude.{◌≡◌, ◌≤◌, ◌<◌, length, get_or};
ghost use Rattle.definitions.specs.Sizes.{most_nodes, most_readings};
ghost use Rattle.definitions.specs.Layouts.{nodes, due};
ghost use Rattle.definitions.specs.declared.Layout.TheVariants.{Translation};
ghost use Rattle.file_records.specs.Index.{Opened};
ghost use Rattle.run.specs.FormalTable.{FormalTable};
ghost use Rattle.run.specs.NodeTable.{table_entries, kind_part, first_part, second_part, third_part, number_part, reading_in, reading_set, Parts, ListEntry, EntryOf, NodeTable, ReadingsSet};
ghost use Rattle.run.specs.States.{Ready};

use crate::formal_places::Places;
use crate::look_up::{body, node_record};
use definitions::sizes::{Ends, MOST_NODES, MOST_READINGS, Starts};
use definitions::{Layout, translation_kinds};
use file_layout::layout::{first_item, first_node, nodes};
use file_records::records::{field, field_count, indexed, kind, start_in};
use operators::bits::{bits_of, number_of};

pub const TABLE_ENTRIES: usize = MOST_NODES + MOST_READINGS;

pub type Table = [u64; TABLE_ENTRIES];

// The number with these parts.
pub(crate) fn entry_with(a: u16, b: u16, c: u16, d: u16) -> u64
    ensures { Parts result a b c d }
{
    let low = u64::from(a) + 0x1_0000 * u64::from(b);
    let high = u64::from(c) + 0x1_0000 * u64::from(d);
    low + 0x1_0000_0000 * high
}

// The entry of a node whose list of nodes stands in record `r`.
fn list_entry(b: &[u8], index: &Starts, kind: u16, first: u16, r: usize) -> u64
    requires { Opened Translation b.now index.now × (r < due b.now) }
    ensures { ListEntry b.now kind first r result }
{
    let start = (start_in(index, r) % 0x1_0000) as u16;
    let count = (field_count(indexed(b, index, r)) % 0x1_0000) as u16;
    entry_with(kind, first, start, count)
}

// The entry of node `k` of an accepted translation.
fn entry_at(b: &[u8], index: &Starts, ends: &Ends, places: &Places, k: u16) -> u64
    requires { Ready b.now index.now ends.now × FormalTable b.now places.now × (k < nodes b.now) }
    ensures { EntryOf b.now k result }
{
    let rec = node_record(b, index, k);
    let kind = kind(rec);
    let first = field(rec, 0);
    if kind == translation_kinds::FORMAL {
        let r = first_item(Layout::Translation, b) + usize::from(first);
        return list_entry(b, index, kind, places[usize::from(first)], r);
    }
    if kind == translation_kinds::CALL {
        let f = field(rec, 1);
        return entry_with(kind, first, f, body(b, index, ends, f));
    }
    if translation_kinds::TUPLE <= kind {
        let r = first_node(b) + usize::from(k);
        return list_entry(b, index, kind, first, r);
    }
    entry_with(kind, first, field(rec, 1), field(rec, 2))
}

// Fills a table with the nodes of an accepted translation.
pub(crate) fn fill_nodes(tab: &mut Table, b: &[u8], index: &Starts, ends: &Ends, places: &Places)
    requires { Ready b.now index.now ends.now × FormalTable b.now places.now × (length tab.old ≡ table_entries) }
    ensures { NodeTable b.now tab.new × (length tab.new ≡ table_entries) }
{
    let count = nodes(b);
    for k in 0..count {
        let x = entry_at(b, index, ends, places, k);
        tab[usize::from(k)] = x;
    }
}

// Sets reading `i` in a table.
pub fn set_reading(tab: &mut Table, i: usize, z: i32)
    requires { (length tab.old ≡ table_entries) × (i < most_readings) }
    ensures { tab.new ≡ reading_set tab.old i z }
{
    let bits = bits_of(z);
    tab[MOST_NODES + i] = u64::from(bits);
}

// Sets the readings in a table.
pub fn set_readings(tab: &mut Table, readings: &[i32])
    requires { (length tab.old ≡ table_entries) × (length readings.now ≤ most_readings) }
    ensures { ReadingsSet tab.old readings.now tab.new }
{
    for (i, &z) in readings.iter().enumerate() {
        set_reading(tab, i, z);
    }
}

// The entry of node `k`.
pub fn entry(tab: &Table, k: u16) -> u64
    requires { k < most_nodes }
    ensures { result ≡ get_or tab.now k 0 }
{
    tab[usize::from(k)]
}

// Reading `i`.
pub(crate) fn reading(tab: &Table, i: u16) -> i32
    requires { i < most_readings }
    ensures { result ≡ reading_in tab.now i }
{
    number_of((tab[MOST_NODES + usize::from(i)] % 0x1_0000_0000) as u32)
}

// The kind, and the first, the second and the third field of an entry.
pub fn kind_in(x: u64) -> u16
    ensures { result ≡ kind_part x }
{
    (x % 0x1_0000) as u16
}

pub fn first_in(x: u64) -> u16
    ensures { result ≡ first_part x }
{
    (x / 0x1_0000 % 0x1_0000) as u16
}

pub(crate) fn second_in(x: u64) -> u16
    ensures { result ≡ second_part x }
{
    (x / 0x1_0000_0000 % 0x1_0000) as u16
}

pub(crate) fn third_in(x: u64) -> u16
    ensures { result ≡ third_part x }
{
    (x / 0x1_0000_0000_0000 % 0x1_0000) as u16
}

// The number of an entry: its first two fields as a signed 32-bit number.
pub(crate) fn number_in(x: u64) -> i32
    ensures { result ≡ number_part x }
{
    number_of((x / 0x1_0000 % 0x1_0000_0000) as u32)
}
