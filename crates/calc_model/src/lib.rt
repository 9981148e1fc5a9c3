//! The vocabulary of calc: texts, values, formula trees, contents and edits, and the definitions that
//! say what a book means.
#![tactic(auto)]

mod arg;
mod change;
mod code_id;
mod content;
mod dependents;
mod ear;
mod edit;
mod fault;
mod function;
mod homes;
mod identifier;
mod laws;
mod limits;
mod list;
mod looked;
mod names;
mod scalar;
mod steps;
mod text;
mod tree;
mod value;
mod values;

pub use arg::Arg;
pub use change::Change;
pub use code_id::CodeId;
pub use content::{Constant, Content, Formula};
pub use dependents::{Dependents, Part};
pub use ear::Ear;
pub use edit::{Edit, EditCause};
pub use fault::Fault;
pub use function::{Form, Function, form_named};
pub use homes::{home_after_deletion, home_after_insertion};
pub use identifier::{begins_identifier, is_identifier, is_in_identifier, is_name, is_utf8};
pub use laws::{
    edits_keep_books, fixed_point, formulas_stay_formed, names_change_their_users,
    rounds_reach_all, rows_change_their_readers,
};
pub use limits::{
    MOST_CELLS, MOST_FIELD_BYTES, MOST_FORMULA_BYTES, MOST_GENERATED_ROWS, MOST_NAMES, MOST_OPEN,
    MOST_PARAMETERS, MOST_START, MOST_TOKENS,
};
pub use list::List;
pub use looked::Looked;
pub use names::NameTable;
pub use scalar::scalar_at;
pub use steps::Steps;
pub use text::Text;
pub use tree::{Op, Tree};
pub use value::{Seen, Value, compare, show, to_logic, to_number, to_text};
pub use values::{Piece, Values};
