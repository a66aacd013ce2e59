//! The names of C.

ghost use Rattle.std.specs.Prelude.{◌≡◌};
ghost use Rattle.std.specs.List.{list_all};
ghost use Rattle.sdv_emit.specs.Identifier.{begins_and_ends, is_first, is_further, is_identifier, is_in_headers};
ghost use Rattle.sdv_emit.specs.Identifier.{is_integer_macro, is_integer_type, is_keyword, is_other_name, is_reserved, is_taken};

/// The keywords of C99.
const KEYWORDS: [&str; 37] = [
    "auto",
    "break",
    "case",
    "char",
    "const",
    "continue",
    "default",
    "do",
    "double",
    "else",
    "enum",
    "extern",
    "float",
    "for",
    "goto",
    "if",
    "inline",
    "int",
    "long",
    "register",
    "restrict",
    "return",
    "short",
    "signed",
    "sizeof",
    "static",
    "struct",
    "switch",
    "typedef",
    "union",
    "unsigned",
    "void",
    "volatile",
    "while",
    "_Bool",
    "_Complex",
    "_Imaginary",
];

fn is_keyword(name: &str) -> bool
    ensures { result ≡ is_keyword name.now }
{
    KEYWORDS.contains(&name)
}

/// The names of `stddef.h` and `stdint.h` that are no types and limits of integers by their form, and the function that a
/// program begins with.
const OTHER_NAMES: [&str; 15] = [
    "main",
    "size_t",
    "ptrdiff_t",
    "wchar_t",
    "NULL",
    "offsetof",
    "PTRDIFF_MIN",
    "PTRDIFF_MAX",
    "SIG_ATOMIC_MIN",
    "SIG_ATOMIC_MAX",
    "SIZE_MAX",
    "WCHAR_MIN",
    "WCHAR_MAX",
    "WINT_MIN",
    "WINT_MAX",
];

fn is_other_name(name: &str) -> bool
    ensures { result ≡ is_other_name name.now }
{
    OTHER_NAMES.contains(&name)
}

/// Whether a name is the implementation's, or is with `_words` behind it.
fn is_reserved(name: &[u8]) -> bool
    ensures { result ≡ is_reserved name.now }
{
    match name {
        [] => false,
        [first] => *first == b'_',
        [first, second, ..] => *first == b'_' && (*second == b'_' || second.is_ascii_uppercase()),
    }
}

fn begins_and_ends(front: &[u8], back: &[u8], name: &[u8]) -> bool
    ensures { result ≡ begins_and_ends front.now back.now name.now }
{
    name.starts_with(front) && name.ends_with(back)
}

const SIGNED_TYPE: &[u8] = b"int";

const UNSIGNED_TYPE: &[u8] = b"uint";

const TYPE_END: &[u8] = b"_t";

/// `int8_t`, `uint_fast16_t` and the like.
fn is_integer_type(name: &[u8]) -> bool
    ensures { result ≡ is_integer_type name.now }
{
    begins_and_ends(SIGNED_TYPE, TYPE_END, name) || begins_and_ends(UNSIGNED_TYPE, TYPE_END, name)
}

const SIGNED_MACRO: &[u8] = b"INT";

const UNSIGNED_MACRO: &[u8] = b"UINT";

const LEAST_END: &[u8] = b"_MIN";

const MOST_END: &[u8] = b"_MAX";

const CONSTANT_END: &[u8] = b"_C";

/// `INT8_MIN`, `UINT32_C` and the like, by how they begin.
fn is_integer_macro(front: &[u8], name: &[u8]) -> bool
    ensures { result ≡ is_integer_macro front.now name.now }
{
    begins_and_ends(front, LEAST_END, name)
        || begins_and_ends(front, MOST_END, name)
        || begins_and_ends(front, CONSTANT_END, name)
}

fn is_in_headers(name: &str) -> bool
    ensures { result ≡ is_in_headers name.now }
{
    let bytes = name.as_bytes();
    is_integer_type(bytes)
        || is_integer_macro(SIGNED_MACRO, bytes)
        || is_integer_macro(UNSIGNED_MACRO, bytes)
        || is_other_name(name)
}

/// Whether C has a name for itself: a keyword, or one that is reserved or that the headers of the text have.
fn is_taken(name: &str) -> bool
    ensures { result ≡ is_taken name.now }
{
    is_keyword(name) || is_reserved(name.as_bytes()) || is_in_headers(name)
}

fn is_first(byte: u8) -> bool
    ensures { result ≡ is_first byte }
{
    byte.is_ascii_alphabetic() || byte == b'_'
}

fn is_further(byte: u8) -> bool
    ensures { result ≡ is_further byte }
{
    byte.is_ascii_alphanumeric() || byte == b'_'
}

fn are_further(bytes: &[u8]) -> bool
    ensures { result ≡ list_all is_further bytes.now }
{
    bytes.iter().all(|byte| is_further(*byte))
}

/// Whether a text is an identifier of C that an array can have: a letter or `_`, then letters, digits and `_`, and neither a
/// keyword of C99 nor taken otherwise: by the implementation, by `stddef.h` or `stdint.h`, or as `main`.
pub fn is_identifier(name: &str) -> bool
    ensures { result ≡ is_identifier name.now }
{
    match name.as_bytes() {
        [] => false,
        [first, further @ ..] => { is_first(*first) && are_further(further) && !is_taken(name) }
    }
}
