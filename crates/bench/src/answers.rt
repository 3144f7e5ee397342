//! Answers of a store of which a flush may be in hand.
use std::test::Fail;
use store_core::Refusal;

/// The answer of a call, where it could be made.
pub fn answered<T: Drop>(answer: Option<Result<T, Refusal>>) -> Result<T, Fail> {
    let Some(answer) = answer else {
        return Err("a flush in hand, or none")?;
    };
    Ok(answer?)
}
