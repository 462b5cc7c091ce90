// What the definitions in specs/ and the code share: types, numbers, kinds, operator codes and sizes. The definitions are in specs/.
#![tactic(auto)]

pub mod answer_record;
pub mod numbers;
pub mod operator_codes;
pub mod refusals;
pub mod sheet_kinds;
pub mod sizes;
pub mod translation_kinds;

// Which of the two files of document 01: a sheet or a translation.
#[derive(Clone, Copy)]
pub enum Layout {
    Sheet,
    Translation,
}
