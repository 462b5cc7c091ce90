// The state of a run: how the last visit ended, the steps left and the most cells alive together.
ghost use Rattle.std.specs.Prelude.{◌≡◌, pos};
ghost use Rattle.definitions.specs.Rule.{integer, constructor, value, ended};
ghost use Rattle.run.specs.States.{ending_of, given_of};

use operators::Fault;

// A value: a number, or a constructor with node and context.
#[derive(Clone, Copy)]
pub enum Value {
    Number(i32),
    Constructor { node: u16, context: u16 },
}

// The stop or the run fault that ended a visit, by its number.
#[derive(Clone, Copy)]
pub struct End {
    pub number: u16,
}

// How a visit ends: with a value, or with a stop or a run fault.
pub type Outcome = Result<Value, End>;

#[derive(Clone, Copy)]
pub struct State {
    pub outcome: Outcome,
    pub left: u32,
    pub most: u32,
}

// The outcome of a visit that a stop or a run fault ends.
pub(crate) fn ended(number: u16) -> Outcome
    ensures { ending_of result ≡ ended number }
{
    Err(End { number })
}

// The outcome of a visit that ends with a number.
pub(crate) fn number(z: i32) -> Outcome
    ensures { ending_of result ≡ value (integer z) }
{
    Ok(Value::Number(z))
}

// The outcome of a visit that ends with the number that a tag is.
pub(crate) fn tag(t: u16) -> Outcome
    ensures { ending_of result ≡ value (integer (pos t)) }
{
    number(i32::from(t))
}

// The outcome of a visit that ends with a constructor.
pub(crate) fn constructor(node: u16, context: u16) -> Outcome
    ensures { ending_of result ≡ value (constructor node context) }
{
    Ok(Value::Constructor { node, context })
}

// The outcome of a visit that ends with what an operator gives.
pub(crate) fn given(c: Result<i32, Fault>) -> Outcome
    ensures { ending_of result ≡ given_of c }
{
    match c {
        Ok(z) => number(z),
        Err(fault) => ended(fault.number()),
    }
}
