//! Literals as codes: twice the variable, and one more where it is negated.

pub type Code = u32;

#[inline]
pub fn code_of(literal: i32) -> Code {
    let twice = literal.unsigned_abs().wrapping_mul(2);
    if literal < 0 {
        twice.wrapping_add(1)
    } else {
        twice
    }
}

#[inline]
pub fn variable_of(code: Code) -> usize {
    (code >> 1) as usize
}

/// The code of a variable itself.
#[inline]
pub fn code_for(variable: usize) -> Code {
    u32::try_from(variable).unwrap_or(0).wrapping_mul(2)
}

#[inline]
pub fn negated(code: Code) -> Code {
    code ^ 1
}

/// The signed literal of a code.
pub fn signed_of(code: Code) -> i32 {
    let variable = (code >> 1) as i32;
    if code & 1 == 1 { -variable } else { variable }
}
