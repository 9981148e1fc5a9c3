use crate::value::Value;
use calc_addr::Area;

/// A parameter of a call: a value, or the area of a reference.
#[derive(Drop)]
pub enum Arg {
    Scalar(Value),
    Area(Area),
}

impl Default for Arg {
    fn default() -> Self {
        Arg::Scalar(Value::Blank)
    }
}
