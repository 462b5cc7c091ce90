// The parts of a file: the head's counts, the sections of records and the runs of nodes.
ghost use Rattle.std.specs.Prelude.{◌≡◌, ◌≤◌};
ghost use Rattle.definitions.specs.Layouts.{readings, items, functions, nodes, is_typed, first_item, first_function, first_node, due};
ghost use Rattle.definitions.specs.Layouts.{head_kind, constructor_kind, function_kind, section_kind, node_kind, is_due, count_field};
ghost use Rattle.definitions.specs.Shape.{file_limit, item_limit};

use definitions::sizes::{MOST_CONSTRUCTORS, MOST_FORMALS, SHEET_BYTES, TRANSLATION_BYTES};
use definitions::{Layout, sheet_kinds, translation_kinds};
use file_fields::bytes::word;

// The head's counts.
pub fn readings(b: &[u8]) -> u16
    ensures { result ≡ readings b.now }
{
    word(b, 4)
}

pub fn items(b: &[u8]) -> u16
    ensures { result ≡ items b.now }
{
    word(b, 6)
}

pub fn functions(b: &[u8]) -> u16
    ensures { result ≡ functions b.now }
{
    word(b, 8)
}

pub fn nodes(b: &[u8]) -> u16
    ensures { result ≡ nodes b.now }
{
    word(b, 10)
}

// The numbers of the first item's, the first function's and the first node's record, and of the records due.
pub fn first_item(y: Layout, b: &[u8]) -> usize
    ensures { (result ≡ first_item y b.now) × (result ≤ 65536) }
{
    match y {
        Layout::Sheet => 1,
        Layout::Translation => 1 + usize::from(functions(b)),
    }
}

pub fn first_function(y: Layout, b: &[u8]) -> usize
    ensures { (result ≡ first_function y b.now) × (result ≤ 65536) }
{
    match y {
        Layout::Sheet => 1 + usize::from(items(b)),
        Layout::Translation => 1,
    }
}

pub fn first_node(b: &[u8]) -> usize
    ensures { (result ≡ first_node b.now) × (result ≤ 131071) }
{
    1 + usize::from(items(b)) + usize::from(functions(b))
}

pub fn due(b: &[u8]) -> usize
    ensures { (result ≡ due b.now) × (result ≤ 196606) }
{
    first_node(b) + usize::from(nodes(b))
}

// The kinds that are due.
fn head_kind(y: Layout) -> u16
    ensures { result ≡ head_kind y }
{
    match y {
        Layout::Sheet => sheet_kinds::HEAD,
        Layout::Translation => translation_kinds::HEAD,
    }
}

// Whether a sheet is typed: the kind of the record after the head, which has 12 bytes.
pub fn is_typed(b: &[u8]) -> bool
    ensures { result ≡ is_typed b.now }
{
    let k = word(b, 14);
    k == sheet_kinds::TYPED_CONSTRUCTOR || k == sheet_kinds::TYPED_FUNCTION
}

fn constructor_kind(b: &[u8]) -> u16
    ensures { result ≡ constructor_kind b.now }
{
    if is_typed(b) {
        sheet_kinds::TYPED_CONSTRUCTOR
    } else {
        sheet_kinds::CONSTRUCTOR
    }
}

fn function_kind(b: &[u8]) -> u16
    ensures { result ≡ function_kind b.now }
{
    if is_typed(b) {
        sheet_kinds::TYPED_FUNCTION
    } else {
        sheet_kinds::FUNCTION
    }
}

fn section_kind(y: Layout, b: &[u8], r: usize) -> u16
    ensures { result ≡ section_kind y b.now r }
{
    match y {
        Layout::Sheet => {
            if r <= usize::from(items(b)) {
                constructor_kind(b)
            } else {
                function_kind(b)
            }
        }
        Layout::Translation => {
            if r <= usize::from(functions(b)) {
                translation_kinds::FUNCTION
            } else {
                translation_kinds::FORMAL_LIST
            }
        }
    }
}

fn node_kind(y: Layout) -> u16
    ensures { result ≡ node_kind y }
{
    match y {
        Layout::Sheet => sheet_kinds::NUMBER,
        Layout::Translation => translation_kinds::NUMBER,
    }
}

// Whether a kind is due at record `r`, where the nodes start at record `first`.
pub fn is_due(y: Layout, b: &[u8], first: usize, r: usize, kind: u16) -> bool
    requires { first ≡ first_node b.now }
    ensures { result ≡ is_due y b.now r kind }
{
    if r == 0 {
        return kind == head_kind(y);
    }
    if r < first {
        return kind == section_kind(y, b, r);
    }
    let low = node_kind(y);
    low <= kind && kind - low <= 8
}

// The field of a function's record that holds its node count.
pub fn count_field(y: Layout) -> usize
    ensures { result ≡ count_field y }
{
    match y {
        Layout::Sheet => 1,
        Layout::Translation => 0,
    }
}

// The greatest length of a file: "at most 32,768 bytes", "at most 40,960 bytes".
pub fn file_limit(y: Layout) -> usize
    ensures { result ≡ file_limit y }
{
    match y {
        Layout::Sheet => SHEET_BYTES,
        Layout::Translation => TRANSLATION_BYTES,
    }
}

// The greatest count of items: "constructors K 0..64", "formals P 0..512".
pub fn item_limit(y: Layout) -> usize
    ensures { result ≡ item_limit y }
{
    match y {
        Layout::Sheet => MOST_CONSTRUCTORS,
        Layout::Translation => MOST_FORMALS,
    }
}
