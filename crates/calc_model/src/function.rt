ghost use Rattle.std.specs.Prelude.{◌≡◌};
ghost use Rattle.calc_model.specs.Functions.{form_named, forms_from_lists, forms_from_logic, forms_from_texts, forms_of_areas, named_in, takes};

use crate::limits::MOST_PARAMETERS;

/// A function of formulas (OpenFormula, 6).
#[derive(Clone, Copy, Debug, PartialEq, Eq)]
pub enum Function {
    Abs,
    Sign,
    Int,
    Trunc,
    RoundDown,
    Round,
    RoundUp,
    Mod,
    Quotient,
    Power,
    Sqrt,
    And,
    Or,
    Not,
    True,
    False,
    Na,
    If,
    IfError,
    IsError,
    IsNa,
    IsNumber,
    IsText,
    IsBlank,
    Len,
    Left,
    Right,
    Mid,
    Find,
    Rept,
    Exact,
    Concatenate,
    Value,
    Sum,
    Average,
    Min,
    Max,
    Product,
    Count,
    CountA,
    CountBlank,
    CountIf,
    SumIf,
    Index,
    Match,
    VLookup,
    HLookup,
    Choose,
    Row,
    Column,
    Rows,
    Columns,
}

/// A function, and the least and the most parameters that it takes.
#[derive(Clone, Copy, Debug, PartialEq, Eq)]
pub struct Form {
    pub function: Function,
    pub least: usize,
    pub most: usize,
}

impl Form {
    /// Whether it takes so many parameters.
    pub fn takes(&self, count: usize) -> bool
        ensures { result ≡ takes self.now count }
    {
        self.least <= count && count <= self.most
    }
}

const fn taking(function: Function, least: usize, most: usize) -> Form
    ensures { result ≡ record { function = function; least = least; most = most } }
{
    Form {
        function,
        least,
        most,
    }
}

/// The function of that name, which stands in capitals, as a call's does. Constant time.
pub fn form_named(name: &str) -> Option<Form>
    ensures { result ≡ form_named name.now }
{
    let form = match name {
        "ABS" => taking(Function::Abs, 1, 1),
        "SIGN" => taking(Function::Sign, 1, 1),
        "INT" => taking(Function::Int, 1, 1),
        "TRUNC" => taking(Function::Trunc, 1, 2),
        "ROUNDDOWN" => taking(Function::RoundDown, 1, 2),
        "ROUND" => taking(Function::Round, 1, 2),
        "ROUNDUP" => taking(Function::RoundUp, 1, 2),
        "MOD" => taking(Function::Mod, 2, 2),
        "QUOTIENT" => taking(Function::Quotient, 2, 2),
        "POWER" => taking(Function::Power, 2, 2),
        "SQRT" => taking(Function::Sqrt, 1, 1),
        _ => return of_logic(name),
    };
    Some(form)
}

/// A function of logical values or kinds (OpenFormula, 6.15 and 6.13), or one behind them.
fn of_logic(name: &str) -> Option<Form>
    ensures { result ≡ named_in forms_from_logic name.now }
{
    let form = match name {
        "AND" => taking(Function::And, 1, MOST_PARAMETERS),
        "OR" => taking(Function::Or, 1, MOST_PARAMETERS),
        "NOT" => taking(Function::Not, 1, 1),
        "TRUE" => taking(Function::True, 0, 0),
        "FALSE" => taking(Function::False, 0, 0),
        "NA" => taking(Function::Na, 0, 0),
        "IF" => taking(Function::If, 2, 3),
        "IFERROR" => taking(Function::IfError, 2, 2),
        "ISERROR" => taking(Function::IsError, 1, 1),
        "ISNA" => taking(Function::IsNa, 1, 1),
        "ISNUMBER" => taking(Function::IsNumber, 1, 1),
        "ISTEXT" => taking(Function::IsText, 1, 1),
        "ISBLANK" => taking(Function::IsBlank, 1, 1),
        _ => return of_texts(name),
    };
    Some(form)
}

/// A function of texts (OpenFormula, 6.20), or one behind them.
fn of_texts(name: &str) -> Option<Form>
    ensures { result ≡ named_in forms_from_texts name.now }
{
    let form = match name {
        "LEN" => taking(Function::Len, 1, 1),
        "LEFT" => taking(Function::Left, 1, 2),
        "RIGHT" => taking(Function::Right, 1, 2),
        "MID" => taking(Function::Mid, 3, 3),
        "FIND" => taking(Function::Find, 2, 3),
        "REPT" => taking(Function::Rept, 2, 2),
        "EXACT" => taking(Function::Exact, 2, 2),
        "CONCATENATE" => taking(Function::Concatenate, 1, MOST_PARAMETERS),
        "VALUE" => taking(Function::Value, 1, 1),
        _ => return of_lists(name),
    };
    Some(form)
}

/// A function of lists or criteria (OpenFormula, 6.16 and 6.18), or one behind them.
fn of_lists(name: &str) -> Option<Form>
    ensures { result ≡ named_in forms_from_lists name.now }
{
    let form = match name {
        "SUM" => taking(Function::Sum, 1, MOST_PARAMETERS),
        "AVERAGE" => taking(Function::Average, 1, MOST_PARAMETERS),
        "MIN" => taking(Function::Min, 1, MOST_PARAMETERS),
        "MAX" => taking(Function::Max, 1, MOST_PARAMETERS),
        "PRODUCT" => taking(Function::Product, 1, MOST_PARAMETERS),
        "COUNT" => taking(Function::Count, 1, MOST_PARAMETERS),
        "COUNTA" => taking(Function::CountA, 1, MOST_PARAMETERS),
        "COUNTBLANK" => taking(Function::CountBlank, 1, 1),
        "COUNTIF" => taking(Function::CountIf, 2, 2),
        "SUMIF" => taking(Function::SumIf, 2, 3),
        _ => return of_areas(name),
    };
    Some(form)
}

/// A function that looks into areas (OpenFormula, 6.14).
fn of_areas(name: &str) -> Option<Form>
    ensures { result ≡ named_in forms_of_areas name.now }
{
    let form = match name {
        "INDEX" => taking(Function::Index, 2, 3),
        "MATCH" => taking(Function::Match, 2, 3),
        "VLOOKUP" => taking(Function::VLookup, 3, 4),
        "HLOOKUP" => taking(Function::HLookup, 3, 4),
        "CHOOSE" => taking(Function::Choose, 2, MOST_PARAMETERS),
        "ROW" => taking(Function::Row, 0, 1),
        "COLUMN" => taking(Function::Column, 0, 1),
        "ROWS" => taking(Function::Rows, 1, 1),
        "COLUMNS" => taking(Function::Columns, 1, 1),
        _ => return None,
    };
    Some(form)
}
