ghost use Rattle.json_requests.specs.Filters.{type_named};

use json_shapes::Words;

/// How a number is compared.
#[derive(Clone, Copy, Debug, PartialEq, Eq)]
pub(crate) enum NumberTest {
    Greater,
    GreaterThanEq,
    Less,
    LessThanEq,
    Eq,
    NotEq,
}

/// How a text is compared.
#[derive(Clone, Copy, Debug, PartialEq, Eq)]
pub(crate) enum TextTest {
    Contains,
    NotContains,
    StartsWith,
    EndsWith,
    Eq,
}

/// ConditionType, by what its values are.
#[derive(Clone, Copy, Debug, PartialEq, Eq)]
pub(crate) enum ConditionType {
    /// One number.
    Number(NumberTest),
    /// Two numbers.
    NumberBetween,
    /// One text.
    Text(TextTest),
    /// No value.
    Blank,
    /// No value.
    NotBlank,
}

/// The words of ConditionType.
#[derive(Clone, Copy)]
pub(crate) struct ConditionTypes;

impl Words for ConditionTypes {
    type Output = ConditionType;

    ghost table = { λ _. type_named };

    fn named(&self, name: &str) -> Option<ConditionType> {
        match name {
            "NUMBER_GREATER" => Some(ConditionType::Number(NumberTest::Greater)),
            "NUMBER_GREATER_THAN_EQ" => Some(ConditionType::Number(NumberTest::GreaterThanEq)),
            "NUMBER_LESS" => Some(ConditionType::Number(NumberTest::Less)),
            "NUMBER_LESS_THAN_EQ" => Some(ConditionType::Number(NumberTest::LessThanEq)),
            "NUMBER_EQ" => Some(ConditionType::Number(NumberTest::Eq)),
            "NUMBER_NOT_EQ" => Some(ConditionType::Number(NumberTest::NotEq)),
            "NUMBER_BETWEEN" => Some(ConditionType::NumberBetween),
            "TEXT_CONTAINS" => Some(ConditionType::Text(TextTest::Contains)),
            "TEXT_NOT_CONTAINS" => Some(ConditionType::Text(TextTest::NotContains)),
            "TEXT_STARTS_WITH" => Some(ConditionType::Text(TextTest::StartsWith)),
            "TEXT_ENDS_WITH" => Some(ConditionType::Text(TextTest::EndsWith)),
            "TEXT_EQ" => Some(ConditionType::Text(TextTest::Eq)),
            "BLANK" => Some(ConditionType::Blank),
            "NOT_BLANK" => Some(ConditionType::NotBlank),
            _ => None,
        }
    }
}
