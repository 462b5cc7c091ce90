// The sheet_types crate: the types of a typed sheet's nodes, and the rules of types (document 02, request 11).
#![tactic(auto)]

ghost use Rattle.std.specs.Prelude.{◌≡◌, ◌+◌, ◌≤◌, true, cond, ◌||◌, eqb};
ghost use Rattle.definitions.specs.Records.{field, field_count};
ghost use Rattle.definitions.specs.Lists.{all_of};
ghost use Rattle.definitions.specs.Layouts.{nodes, node_record, owner_of};
ghost use Rattle.definitions.specs.References.{clauses, clause_constructor};
ghost use Rattle.definitions.specs.SheetRules.{is_body, clause_within};
ghost use Rattle.definitions.specs.Types.{own_type, result_type, pattern_type, type_by, arguments_typed, children_typed, is_clause, typing};
ghost use Rattle.definitions.specs.Refusals.{as_verdict};
ghost use Rattle.definitions.specs.Verdicts.{first_of};
ghost use Rattle.definitions.specs.declared.Layout.TheVariants.{Sheet};
ghost use Rattle.sheet_rules.specs.Nodes.{NodeAt};
ghost use Rattle.sheet_rules.specs.Seen.{ParentsOf, TreesAccepted};
ghost use Rattle.sheet_rules.specs.Clauses.{ClausesOf, Ruled};
ghost use Rattle.sheet_types.specs.Tables.{type_in, NamedAt, CaseAt, TypedAt};

use definitions::refusals::{Reason, Refusal};
use definitions::sizes::{Ends, MOST_NODES, OfNodes, Owners, Starts};
use definitions::{Layout, sheet_kinds};
use file_layout::layout::{first_function, first_item, first_node, nodes};
use file_records::declared_fields::{constructor_field, function_field};
use file_records::records::{field, field_count, field_inside, indexed, kind};
use file_references::references::{clause_constructor, clauses};
use sheet_rules::tree::is_body;

// A constructor's own type and the first of its field types, a function's result type and the first of its parameter types,
// by field.
const OWN_TYPE: usize = 1;

const FIELD_TYPES: usize = 2;

const RESULT_TYPE: usize = 2;

const PARAMETER_TYPES: usize = 3;

// "Types are 0 (number) and 1..64".
const NUMBER_TYPE: u16 = 0;

// The type of node `c` by the table; 0 past it.
fn type_in(types: &OfNodes, c: u16) -> u16
    ensures { result ≡ type_in types.now c }
{
    let c = usize::from(c);
    if c < MOST_NODES {
        types[c]
    } else {
        NUMBER_TYPE
    }
}

// The type of pattern variable `i` at node `k`.
fn pattern_type(b: &[u8], starts: &Starts, held: &[u32; MOST_NODES], k: usize, i: u16) -> u16
    requires { NamedAt b.now starts.now k × ClausesOf b.now held.now }
    ensures { result ≡ pattern_type b.now i (clause_within b.now (nodes b.now) k) }
{
    let h = held[k];
    if h < 1 {
        return NUMBER_TYPE;
    }
    constructor_field(b, starts, h as usize - 1, FIELD_TYPES + usize::from(i))
}

// The type of node `k`, whose record is `rec`, where the table has those of smaller nodes.
fn type_at(
    b: &[u8],
    starts: &Starts,
    owners: &Owners,
    held: &[u32; MOST_NODES],
    types: &OfNodes,
    k: usize,
    rec: &[u8],
) -> u16
    requires { TypedAt b.now starts.now owners.now held.now k × (rec.now ≡ node_record b.now k) }
    ensures { result ≡ type_by b.now (type_in types.now) k rec.now }
{
    let i = kind(rec);
    let x = field(rec, 0);
    if i == sheet_kinds::PARAMETER {
        return function_field(
            b,
            starts,
            usize::from(owners[k]),
            PARAMETER_TYPES + usize::from(x),
        );
    }
    if i == sheet_kinds::PATTERN_VARIABLE {
        return pattern_type(b, starts, held, k, x);
    }
    if i == sheet_kinds::CONDITIONAL {
        return type_in(types, field(rec, 1));
    }
    if i == sheet_kinds::CALL {
        return function_field(b, starts, usize::from(x), RESULT_TYPE);
    }
    if i == sheet_kinds::BUILD {
        return constructor_field(b, starts, usize::from(x), OWN_TYPE);
    }
    if i == sheet_kinds::CASE {
        return function_field(b, starts, usize::from(owners[k]), RESULT_TYPE);
    }
    NUMBER_TYPE
}

// Whether the arguments of a call or a build have the types that `declared` has from field `first` on.
fn arguments_typed(types: &OfNodes, rec: &[u8], declared: &[u8], first: usize) -> bool
    requires { (first ≤ 3) × (field_count rec.now ≤ 9) }
    ensures { result ≡ arguments_typed (type_in types.now) (λ i. field declared.now (first + i)) rec.now }
{
    let n = field_count(rec);
    if n < 1 {
        return true;
    }
    let count = n - 1;
    for i in 0..count {
        if type_in(types, field_inside(rec, 1 + i)) != field(declared, first + i) {
            return false;
        }
    }
    true
}

// Whether the constructors of a case's clauses are of type `t`.
fn clauses_typed(b: &[u8], starts: &Starts, k: usize, rec: &[u8], t: u16) -> bool
    requires { CaseAt b.now starts.now k rec.now }
    ensures { result ≡ all_of (clauses rec.now) (λ j. eqb (own_type b.now (clause_constructor rec.now j)) t) }
{
    let count = clauses(rec);
    for j in 0..count {
        let c = usize::from(clause_constructor(rec, j));
        if constructor_field(b, starts, c, OWN_TYPE) != t {
            return false;
        }
    }
    true
}

// What node `k`, whose record is `rec`, asks of its children, whose types the table has.
fn children_typed(b: &[u8], starts: &Starts, types: &OfNodes, k: usize, rec: &[u8]) -> bool
    requires { NamedAt b.now starts.now k × (rec.now ≡ node_record b.now k) }
    ensures { result ≡ children_typed b.now (type_in types.now) rec.now }
{
    let i = kind(rec);
    let x = field(rec, 0);
    if i == sheet_kinds::OPERATOR {
        if type_in(types, field(rec, 1)) != NUMBER_TYPE {
            return false;
        }
        return type_in(types, field(rec, 2)) == NUMBER_TYPE;
    }
    if i == sheet_kinds::CONDITIONAL {
        if type_in(types, x) != NUMBER_TYPE {
            return false;
        }
        return type_in(types, field(rec, 1)) == type_in(types, field(rec, 2));
    }
    if i == sheet_kinds::CALL {
        let callee = indexed(b, starts, first_function(Layout::Sheet, b) + usize::from(x));
        return arguments_typed(types, rec, callee, PARAMETER_TYPES);
    }
    if i == sheet_kinds::BUILD {
        let constructor = indexed(b, starts, first_item(Layout::Sheet, b) + usize::from(x));
        return arguments_typed(types, rec, constructor, FIELD_TYPES);
    }
    if i == sheet_kinds::CASE {
        let t = type_in(types, x);
        if t < 1 {
            return false;
        }
        return clauses_typed(b, starts, k, rec, t);
    }
    true
}

// Whether node `k` is a body or a clause's node.
fn is_result(
    b: &[u8],
    starts: &Starts,
    ends: &Ends,
    owners: &Owners,
    parents: &[u16; MOST_NODES],
    k: usize,
) -> bool
    requires { NodeAt b.now starts.now ends.now owners.now k × ParentsOf b.now parents.now × TreesAccepted b.now }
    ensures { result ≡ (is_body b.now k || is_clause b.now k) }
{
    if is_body(b, starts, ends, owners, k) {
        return true;
    }
    let rec = indexed(b, starts, first_node(b) + usize::from(parents[k]));
    if kind(rec) != sheet_kinds::CASE {
        return false;
    }
    usize::from(field(rec, 0)) != k
}

// Whether type `t` is the result type of node `k`'s function, where the node is a body or a clause's.
fn result_typed(
    b: &[u8],
    starts: &Starts,
    ends: &Ends,
    owners: &Owners,
    parents: &[u16; MOST_NODES],
    k: usize,
    t: u16,
) -> bool
    requires { NodeAt b.now starts.now ends.now owners.now k × ParentsOf b.now parents.now × TreesAccepted b.now }
    ensures { result ≡ cond (is_body b.now k || is_clause b.now k) (eqb t (result_type b.now (owner_of Sheet b.now k))) true }
{
    if !is_result(b, starts, ends, owners, parents, k) {
        return true;
    }
    t == function_field(b, starts, usize::from(owners[k]), RESULT_TYPE)
}

// The rules of types of every node.
pub fn types(
    b: &[u8],
    starts: &Starts,
    ends: &Ends,
    owners: &Owners,
    parents: &[u16; MOST_NODES],
    held: &[u32; MOST_NODES],
) -> Result<(), Refusal>
    requires { Ruled b.now starts.now ends.now owners.now parents.now × ClausesOf b.now held.now }
    ensures { as_verdict result ≡ first_of (nodes b.now) (typing b.now) }
{
    let mut types = [0u16; MOST_NODES];
    let first = first_node(b);
    let count = usize::from(nodes(b));
    for k in 0..count {
        let rec = indexed(b, starts, first + k);
        let t = type_at(b, starts, owners, held, &types, k, rec);
        types[k] = t;
        if !children_typed(b, starts, &types, k, rec) {
            return Err(Refusal {
                reason: Reason::IllTyped,
                place: first + k,
            });
        }
        if !result_typed(b, starts, ends, owners, parents, k, t) {
            return Err(Refusal {
                reason: Reason::IllTyped,
                place: first + k,
            });
        }
    }
    Ok(())
}
