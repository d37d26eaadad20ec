//! Hints for a formula that can't be read.

use crate::hints::beside;

const COMMENTS: &str = "parsolve doesn't read comments in formulas";

const LOGIC: &str = "write & for /\\, and | for \\/";

const ARROWS: &str = "write -> for -->, and <-> for <-->";

const PSL: &str = "parsolve doesn't read the operators of PSL";

const VALUES: &str = "a proposition is true or false: write p and !p for p=1 and p=0";

const ASCII: &str = "write the operators in ASCII: ! & | -> <-> xor X F G U R W M";

const BOUNDS: &str = "parsolve doesn't read bounds such as F[0:2]: write p | X (p | X p)";

const OPERAND: &str =
    "an operand is missing here; parsolve doesn't read prefix form, such as & p q";

const OPERATOR: &str =
    "an operator is missing here; the operators are ! & | -> <-> xor X F G U R W M, and any other word is a name";

const END: &str = "the text ends inside a formula";

/// What formulas of other tools have, and the hints for it.
const FORMS: [(&[u8], &str); 13] = [
    (b"-->", ARROWS),
    (b"<--", ARROWS),
    (b"//", COMMENTS),
    (b"/*", COMMENTS),
    (b"#", COMMENTS),
    (b"--", COMMENTS),
    (b"/\\", LOGIC),
    (b"\\/", LOGIC),
    (b"{", PSL),
    (b"[*", PSL),
    (b"[+", PSL),
    (b"=", VALUES),
    (b"!=", VALUES),
];

/// The words that stand between operands.
const INFIXES: [&[u8]; 6] = [b"U", b"R", b"V", b"W", b"M", b"xor"];

/// Whether this byte may be in a name.
pub(crate) fn is_inner(byte: u8) -> bool {
    byte.is_ascii_alphanumeric() || matches!(byte, b'_' | b'.')
}

/// Whether a text begins with a word or a sign that stands between operands.
fn begins_infix(text: &[u8]) -> bool {
    let end = text.iter().position(|byte| !is_inner(*byte));
    let word = text.get(..end.unwrap_or(text.len())).unwrap_or(text);
    INFIXES.iter().any(|infix| *infix == word) || matches!(text, [b'&' | b'|' | b'^', ..])
}

/// Whether an operand may end with this byte.
fn ends_operand(byte: u8) -> bool {
    is_inner(byte) || matches!(byte, b'"' | b')')
}

/// Whether an operand may begin with this byte.
fn begins_operand(byte: u8) -> bool {
    byte.is_ascii_alphabetic()
        || matches!(byte, b'_' | b'.' | b'0' | b'1' | b'"' | b'(' | b'!' | b'~')
}

/// Returns the hint for a formula that can't go on at this offset, if there is one.
pub(crate) fn on_formula(text: &[u8], offset: usize) -> Option<&'static str> {
    let before = text.get(..offset)?.trim_ascii_end();
    let rest = text.get(offset..)?;
    if let Some(hint) = beside(&FORMS, rest) {
        return Some(hint);
    }
    match (before.last(), rest) {
        (_, []) => Some(END),
        (_, [0x80..=0xFF, ..]) => Some(ASCII),
        (_, [b'[', b'0'..=b'9' | b':', ..]) => Some(BOUNDS),
        (None, _) if begins_infix(rest) => Some(OPERAND),
        (Some(last), [first, ..])
            if !begins_infix(rest) && ends_operand(*last) && begins_operand(*first) => Some(
            OPERATOR,
        ),
        _ => None,
    }
}
