ghost use Rattle.std.specs.Prelude.{◌≡◌};
ghost use Rattle.cell_calc.specs.FunctionNames.{function_named, named_among, number_names, truth_names, text_names, look_up_names};

use super::table::Function;

/// The function that has the name, in any ASCII case.
pub fn function_named(name: &str) -> Option<Function>
    ensures { result ≡ function_named name.now }
{
    number_function(name).or(truth_function(name).or(text_function(name).or(look_up_function(
        name,
    ))))
}

/// The function of numbers that has the name.
fn number_function(name: &str) -> Option<Function>
    ensures { result ≡ named_among number_names name.now }
{
    if name.eq_ignore_ascii_case("SUM") {
        Some(Function::Sum)
    } else if name.eq_ignore_ascii_case("MIN") {
        Some(Function::Min)
    } else if name.eq_ignore_ascii_case("MAX") {
        Some(Function::Max)
    } else if name.eq_ignore_ascii_case("COUNT") {
        Some(Function::Count)
    } else if name.eq_ignore_ascii_case("COUNTA") {
        Some(Function::CountA)
    } else if name.eq_ignore_ascii_case("ABS") {
        Some(Function::Abs)
    } else if name.eq_ignore_ascii_case("SIGN") {
        Some(Function::Sign)
    } else if name.eq_ignore_ascii_case("MOD") {
        Some(Function::Mod)
    } else if name.eq_ignore_ascii_case("QUOTIENT") {
        Some(Function::Quotient)
    } else {
        None
    }
}

/// The function of truth values that has the name.
fn truth_function(name: &str) -> Option<Function>
    ensures { result ≡ named_among truth_names name.now }
{
    if name.eq_ignore_ascii_case("IF") {
        Some(Function::If)
    } else if name.eq_ignore_ascii_case("AND") {
        Some(Function::And)
    } else if name.eq_ignore_ascii_case("OR") {
        Some(Function::Or)
    } else if name.eq_ignore_ascii_case("NOT") {
        Some(Function::Not)
    } else if name.eq_ignore_ascii_case("ISBLANK") {
        Some(Function::IsBlank)
    } else if name.eq_ignore_ascii_case("ISNUMBER") {
        Some(Function::IsNumber)
    } else if name.eq_ignore_ascii_case("ISTEXT") {
        Some(Function::IsText)
    } else if name.eq_ignore_ascii_case("ISERROR") {
        Some(Function::IsError)
    } else if name.eq_ignore_ascii_case("IFERROR") {
        Some(Function::IfError)
    } else {
        None
    }
}

/// The function of texts that has the name.
fn text_function(name: &str) -> Option<Function>
    ensures { result ≡ named_among text_names name.now }
{
    if name.eq_ignore_ascii_case("LEN") {
        Some(Function::Len)
    } else if name.eq_ignore_ascii_case("LEFT") {
        Some(Function::Left)
    } else if name.eq_ignore_ascii_case("RIGHT") {
        Some(Function::Right)
    } else if name.eq_ignore_ascii_case("MID") {
        Some(Function::Mid)
    } else if name.eq_ignore_ascii_case("CONCATENATE") {
        Some(Function::Concatenate)
    } else if name.eq_ignore_ascii_case("EXACT") {
        Some(Function::Exact)
    } else {
        None
    }
}

/// The function that looks into areas that has the name.
fn look_up_function(name: &str) -> Option<Function>
    ensures { result ≡ named_among look_up_names name.now }
{
    if name.eq_ignore_ascii_case("INDEX") {
        Some(Function::Index)
    } else if name.eq_ignore_ascii_case("MATCH") {
        Some(Function::Match)
    } else if name.eq_ignore_ascii_case("COUNTIF") {
        Some(Function::CountIf)
    } else if name.eq_ignore_ascii_case("SUMIF") {
        Some(Function::SumIf)
    } else if name.eq_ignore_ascii_case("ROWS") {
        Some(Function::Rows)
    } else if name.eq_ignore_ascii_case("COLUMNS") {
        Some(Function::Columns)
    } else {
        None
    }
}
