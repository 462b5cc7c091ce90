// What a search looks for.
ghost use Rattle.std.specs.Prelude.{◌≡◌, ◌≤◌};
ghost use Rattle.std.specs.Int.{w32};
ghost use Rattle.std.proofs.Common.{SFits};
ghost use Rattle.definitions.specs.Sizes.{most_values};
ghost use Rattle.definitions.specs.ReadingSearch.{value_at, value_count, range_fits, ends_in};
ghost use Rattle.run.specs.States.{ending_of};

use definitions::sizes::MOST_VALUES;
use file_layout::layout;
use run::state::{Outcome, Value};
use std::ops::RangeBounds;

// The reading at a position, the lowest and the highest value to try for it, and the number wanted.
#[derive(Clone, Copy)]
pub struct Query {
    pub position: u32,
    pub lowest: i32,
    pub highest: i32,
    pub wanted: i32,
}

impl Query {
    // How many values there are from the lowest to the highest, none where the lowest is above. 64 bits hold it for any two.
    #[tactic(auto, unfolding(definitions::specs::ReadingSearch::value_count, definitions::specs::ReadingSearch::count_to))]
    pub(crate) fn value_count(self) -> u64
        ensures { result ≡ value_count self.lowest self.highest }
    {
        let last = i64::from(self.highest) - i64::from(self.lowest);
        if last < 0 {
            return 0;
        }
        last as u64 + 1
    }

    // Value `i`.
    #[tactic(auto, unfolding(definitions::specs::ReadingSearch::value_at))]
    pub(crate) fn value_at(self, i: u64) -> i32
        requires { (i ≤ most_values) × SFits w32 (value_at self.lowest i) }
        ensures { result ≡ value_at self.lowest i }
    {
        (i64::from(self.lowest) + i as i64) as i32
    }

    // Whether there are values to try, not too many, and the position is that of a reading.
    #[tactic(auto, unfolding(definitions::specs::ReadingSearch::range_fits, definitions::specs::Ranges::within))]
    pub(crate) fn range_fits(self, file: &[u8]) -> bool
        ensures { result ≡ range_fits file.now self.position self.lowest self.highest }
    {
        (1..=MOST_VALUES).contains(&self.value_count())
            && self.position < u32::from(layout::readings(file))
    }

    // Whether a run ends in the wanted number.
    #[tactic(auto, using(operators::proofs::Answers::equal_bits), unfolding(definitions::specs::ReadingSearch::ends_in, run::specs::States::ending_of, run::specs::States::value_of))]
    pub(crate) fn ends_in(self, outcome: Outcome) -> bool
        ensures { result ≡ ends_in self.wanted (ending_of outcome) }
    {
        match outcome {
            Ok(Value::Number(z)) => z == self.wanted,
            Ok(Value::Constructor { .. }) => false,
            Err(_) => false,
        }
    }
}
